//! What C is told: why no call was made, and whether a value is there.
ghost use Rattle.gwb_c.specs.Handle.{Gives};

/// What a call says when memory is refused, when the handle is closed, and when its arguments make no command.
pub(crate) const LACKS_MEMORY: u32 = 4;

pub(crate) const CLOSED: u32 = 9;

pub(crate) const NO_CALL: u32 = 10;

/// What a call says of a value that is there or not.
pub(crate) const FOUND: u32 = 1;

pub(crate) const ABSENT: u32 = 0;

/// Writes a value that is there, and says whether it is.
pub(crate) fn give<T: Copy>(value: Option<T>, out: &mut T) -> u32
    ensures { Gives value out.old out.new result }
{
    match value {
        Some(value) => {
            *out = value;
            FOUND
        }
        None => ABSENT,
    }
}

/// What is told of the slot that is lent, or, if the handle is closed, of none.
macro_rules! told_of {
    ($gwb:ident, $closed:expr, $slot:ident => $told:expr) => {{
        let Some(shown) = session_slots::show($gwb) else {
            return $closed;
        };
        let $slot = shown.slot();
        let told = $told;
        session_slots::hide($gwb, shown);
        told
    }};
}

pub(crate) use told_of;
