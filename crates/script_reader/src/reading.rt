//! Reads the words after each command word.
ghost use Rattle.std.specs.Prelude.{◌≡◌, true};
ghost use Rattle.script_reader.specs.Grammar.{arguments, is_operator};
ghost use Rattle.script_reader.specs.declared.name.Name.TheVariants as name;

use super::command::{Fault, Request};
use super::name::Name;
use super::operators::operator;
use super::places::Words;
use super::polygon::{Outline, Polygon};
use call_types::{Change, Command, Question};

#[tactic(auto, unfolding(crate::specs::Grammar::arguments))]
fn lamina<'a>(words: &mut Words<'a>) -> Result<Request<'a>, Fault>
    ensures { result ≡ arguments name.Lamina words.old }
{
    let solid = words.number()?;
    let polygon = Polygon::read(words.rest())?;
    Ok(Request::Over(Outline::Lamina(solid), polygon))
}

#[tactic(auto, unfolding(crate::specs::Grammar::arguments))]
fn block<'a>(words: &mut Words<'a>) -> Result<Request<'a>, Fault>
    ensures { result ≡ arguments name.Block words.old }
{
    let solid = words.number()?;
    let place = words.point()?;
    let dx = words.integer()?;
    let dy = words.integer()?;
    let dz = words.integer()?;
    words.finish()?;
    Ok(Request::Give(Command::Change(Change::Block(solid, place, dx, dy, dz))))
}

#[tactic(auto, unfolding(crate::specs::Grammar::arguments))]
fn sweep<'a>(words: &mut Words<'a>) -> Result<Request<'a>, Fault>
    ensures { result ≡ arguments name.Sweep words.old }
{
    let face = words.number()?;
    let vector = words.point()?;
    words.finish()?;
    Ok(Request::Give(Command::Change(Change::Sweep(face, vector))))
}

#[tactic(auto, unfolding(crate::specs::Grammar::arguments))]
fn glue<'a>(words: &mut Words<'a>) -> Result<Request<'a>, Fault>
    ensures { result ≡ arguments name.Glue words.old }
{
    let kept = words.number()?;
    let killed = words.number()?;
    words.finish()?;
    Ok(Request::Give(Command::Change(Change::Glue(kept, killed))))
}

#[tactic(auto, unfolding(crate::specs::Grammar::arguments))]
fn split<'a>(words: &mut Words<'a>) -> Result<Request<'a>, Fault>
    ensures { result ≡ arguments name.Split words.old }
{
    let solid = words.number()?;
    let a = words.integer()?;
    let b = words.integer()?;
    let c = words.integer()?;
    let d = words.integer()?;
    let above = words.number()?;
    words.finish()?;
    Ok(Request::Give(Command::Change(Change::Split(solid, a, b, c, d, above))))
}

#[tactic(auto, unfolding(crate::specs::Grammar::arguments))]
fn plane<'a>(words: &mut Words<'a>) -> Result<Request<'a>, Fault>
    ensures { result ≡ arguments name.Plane words.old }
{
    let face = words.number()?;
    words.finish()?;
    Ok(Request::Give(Command::Ask(Question::Plane(face))))
}

#[tactic(auto, unfolding(crate::specs::Grammar::arguments))]
fn volume<'a>(words: &mut Words<'a>) -> Result<Request<'a>, Fault>
    ensures { result ≡ arguments name.Volume words.old }
{
    let solid = words.number()?;
    words.finish()?;
    Ok(Request::Give(Command::Ask(Question::Volume(solid))))
}

#[tactic(auto, unfolding(crate::specs::Grammar::arguments))]
fn count<'a>(words: &mut Words<'a>) -> Result<Request<'a>, Fault>
    ensures { result ≡ arguments name.Count words.old }
{
    let solid = words.number()?;
    words.finish()?;
    Ok(Request::Give(Command::Ask(Question::Count(solid))))
}

#[tactic(auto, unfolding(crate::specs::Grammar::arguments))]
fn undo<'a>(words: &mut Words<'a>) -> Result<Request<'a>, Fault>
    ensures { result ≡ arguments name.Undo words.old }
{
    words.finish()?;
    Ok(Request::Give(Command::Undo))
}

#[tactic(auto, unfolding(crate::specs::Grammar::arguments))]
fn redo<'a>(words: &mut Words<'a>) -> Result<Request<'a>, Fault>
    ensures { result ≡ arguments name.Redo words.old }
{
    words.finish()?;
    Ok(Request::Give(Command::Redo))
}

#[tactic(auto, unfolding(crate::specs::Grammar::arguments))]
fn list<'a>(words: &mut Words<'a>) -> Result<Request<'a>, Fault>
    ensures { result ≡ arguments name.List words.old }
{
    words.finish()?;
    Ok(Request::List)
}

/// A line that asks for one operator.
#[inline(never)]
fn operated<'a>(name: Name, words: &mut Words<'a>) -> Result<Request<'a>, Fault>
    requires { is_operator name ≡ true }
    ensures { result ≡ arguments name words.old }
{
    let op = operator(name, words)?;
    Ok(Request::Give(Command::Change(Change::Act(op))))
}

/// What a line that is this name followed by these words asks for.
pub fn arguments<'a>(name: Name, words: &mut Words<'a>) -> Result<Request<'a>, Fault>
    ensures { result ≡ arguments name words.old }
{
    match name {
        Name::Lamina => lamina(words),
        Name::Block => block(words),
        Name::Sweep => sweep(words),
        Name::Glue => glue(words),
        Name::Split => split(words),
        Name::Plane => plane(words),
        Name::Volume => volume(words),
        Name::Count => count(words),
        Name::Undo => undo(words),
        Name::Redo => redo(words),
        Name::List => list(words),
        _ => operated(name, words),
    }
}
