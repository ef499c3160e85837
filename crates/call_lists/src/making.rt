//! A whole list of calls.
ghost use Rattle.std.specs.Prelude.{◌≡◌, OnOk, OnErr};
ghost use Rattle.call_lists.specs.Common.{IsWhole};
ghost use Rattle.call_lists.specs.Making.{AreTold};

use commands::{Call, Stage, Told, make};
use std::alloc::{AllocError, Global};

/// Makes the calls one after the other, and appends the answer to each. The answers and the session or draft after them are what the plain machine,
/// which keeps a whole copy of every model, may give for these calls in order; and each of its models is sound. The room for the answers is made
/// first: on `AllocError` no call was made, and nothing has changed.
pub fn make_all(
    alloc: Global,
    stage: Stage,
    calls: Vec<Call<'_>>,
    told: &mut Vec<Told>,
) -> (Stage, Result<(), AllocError>)
    ensures made { OnOk result.1 (AreTold stage calls.entry.items told.old.items told.new.items result.0) }
    ensures err { OnErr result.1 ((result.0 ≡ stage) × (told.new.items ≡ told.old.items)) }
    ensures whole { IsWhole result.0 }
{
    if let Err(error) = told.reserve(calls.len()) {
        stage.stays_whole();
        return (stage, Err(error));
    }
    let mut stage = stage;
    for call in calls {
        let (next, answer) = make(alloc, stage, call);
        stage = next;
        told.push(answer).unwrap();
    }
    stage.stays_whole();
    (stage, Ok(()))
}
