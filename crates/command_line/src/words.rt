//! The command line.
ghost use Rattle.std.specs.Prelude.{◌≡◌, ◌≢◌, ◌↔◌, ◌∷◌, [], IfOk, IfErr, IsTrue, Some, None, codes, false, map, option_map, string_bytes};
ghost use Rattle.clap.specs.Words.{app_of, first_of, found_of, kind_of, matches_of, rows_of, rule_of};
ghost use Rattle.clap.specs.Kinds.{FailsBy, HasKind};
ghost use Rattle.clap.specs.declared.error.kind.ErrorKind.TheVariants.{InvalidValue};
ghost use Rattle.clap.specs.Faults.{fault_of};
ghost use Rattle.command_line.specs.Words.{command_line, file_value, program, stop_flag, Chosen, Fails};

use clap::error::ErrorKind;
use clap::{Arg, ArgAction, ArgMatches, Command};
use std::alloc::{AllocError, Global};
use thiserror::Error;

/// What the command line asks for.
#[derive(Debug, PartialEq, Eq, Drop)]
pub struct Choice {
    /// Whether the run ends after the first reply that begins with `refused`, `fault` or `memory`.
    pub stop: bool,
    /// The script's file; `None` stands for standard input.
    pub file: Option<String>,
}

/// Why a command line gave no choice.
#[derive(Debug, Error, Drop)]
pub enum WordsFault {
    /// The words were refused, or ask for help or the version, or memory was refused while they were read. The text is
    /// clap's.
    #[error("{0}")]
    Line(clap::Error),
    /// The memory for a copy of FILE was refused.
    #[error("out of memory")]
    Memory(AllocError),
}

const ABOUT: &str =
    "The Geometric WorkBench: runs a script of Euler operators and writes one reply per command";

const MORE: &str = "\
Commands, one a line; a line that begins with # is a comment, and # after a command is none. S, F, L, E, V are
numbers of a solid, face, loop, edge, vertex:
  mvfs S F L V x y z                new solid with one vertex
  kvfs S                            such a solid goes
  mev CORNER CORNER E V x y z       new edge to a new vertex
  kev HALF                          an edge and its far vertex go
  mef HALF HALF E F L               new edge cuts off a new face
  kef HALF                          an edge and the face of its mate go
  kemr HALF L                       an edge goes, its loop falls in two
  mekr CORNER CORNER E              new edge joins a ring to a loop
  kfmrh F1 F2                       face F2 becomes a ring of F1
  mfkrh L F                         ring L becomes a new face F
  ringmv L F in|out                 ring L goes to face F
  lamina S x y z x y z x y z ..     new solid of two faces through 3 to 64 points
  block S x y z dx dy dz            new solid, a block
  sweep F dx dy dz                  face F is swept
  glue F1 F2                        two solids become one along two faces
  split S a b c d T                 the part of S above a plane becomes solid T
  plane F, volume S, count S        a face's plane, a solid's volume times six, its counts
  undo, redo, list                  back, forth, the model held
HALF is + or - and an edge number; CORNER is a HALF or @ and a lone loop's number.

Replies: ok; refused N X, where condition N is the first false one and X its value; fault N, where the
line is no command; memory, where memory was refused; or what a query asks for. After refused, fault and
memory the model is as it was.

Refusals:
   1 NumberRange       12 NotBare           23 NotRing           34 NoMatch
   2 NoSolid           13 NotLone           24 DifferentSolids   35 PlaneRange
   3 NoFace            14 DifferentTails    25 NothingToUndo     36 PlaneMisses
   4 NoLoop            15 ParallelEdge      26 NothingToRedo     37 NotLattice
   5 NoEdge            16 KeptEndBare       27 NumbersSpent      38 TouchedFace
   6 SolidTaken        17 DifferentLoops    28 FewPoints         39 CutOften
   7 FaceTaken         18 SameTail          29 ZeroSweep         40 CutCrossed
   8 LoopTaken         19 SameFace          30 LoneLoop          41 BranchedVertex
   9 EdgeTaken         20 HasRings          31 SameSolid         42 SectionHoles
  10 VertexTaken       21 SameLoop          32 NotFlat           43 SizeRange
  11 PointRange        22 DifferentFaces    33 RepeatedPoint     44 BadPart

Faults:
   1 BadWord   2 BadNumber   3 MissingWord   4 ExtraWord   5 NotAscii   6 LongLine

Exit status:
  0  the script was run, and no reply begins with refused, fault or memory
  1  the script was run, and some reply does
  2  the command line was refused
  3  the script could not be opened, read or answered to its end

A word that is no flag is FILE: `gwb help` opens a file of that name. gwb-shell is a prompt with help for each command;
it says complaints in words, as `gwb FILE | gwb-explain FILE` does.

Example:
  printf 'mvfs 1 1 1 1 0 0 0\\nmev @1 @1 1 2 5 0 0\\nlist\\n' | gwb --stop";

/// `--stop`.
fn stop_flag<'a>(alloc: Global) -> Arg<'a>
    ensures rule { rule_of result ≡ stop_flag }
    ensures local { result.global ≡ false }
{
    Arg::new(alloc, "stop")
        .long("stop")
        .action(ArgAction::SetTrue)
        .help("End after the first reply that begins with refused, fault or memory")
}

/// `FILE`.
fn file_value<'a>(alloc: Global) -> Arg<'a>
    ensures rule { rule_of result ≡ file_value }
    ensures local { result.global ≡ false }
{
    Arg::new(alloc, "FILE").help("The script; standard input where none is given")
}

/// The program, with its texts.
fn program<'a>(alloc: Global) -> Command<'a>
    ensures { app_of result ≡ program }
{
    Command::new(alloc, "gwb")
        .version("3.0.0")
        .about(ABOUT)
        .after_help(MORE)
        .override_usage("gwb [--stop] [FILE]")
}

/// The command line that the program takes.
#[tactic(auto, unfolding(crate::specs::Words::command_line))]
fn command<'a>(alloc: Global) -> Result<Command<'a>, AllocError>
    ensures { IfOk result (λ c. app_of c ≡ command_line) }
{
    program(alloc).arg(stop_flag(alloc))?.arg(file_value(alloc))
}

/// What clap finds in the words.
fn parse<'a>(alloc: Global, words: &'a [String]) -> Result<ArgMatches<'a>, clap::Error>
    ensures matches { IfOk result (λ m. rows_of (found_of m) ≡ matches_of command_line (map string_bytes words.now)) }
    ensures fault { FailsBy (fault_of command_line (map string_bytes words.now)) result }
{
    command(alloc)?.try_get_matches_from(words)
}

/// clap's text on words that are no UTF-8.
fn refusal_of_bytes(alloc: Global) -> Result<clap::Error, AllocError>
    ensures { IfOk result (λ e. kind_of e ≡ InvalidValue) }
{
    let mut command = command(alloc)?;
    command.error(
        ErrorKind::InvalidValue,
        "invalid UTF-8 was detected in one or more arguments",
    )
}

/// The refusal of words that are no UTF-8.
pub fn not_text(alloc: Global) -> clap::Error
    ensures { HasKind (InvalidValue ∷ []) result }
{
    match refusal_of_bytes(alloc) {
        Ok(refusal) => refusal,
        Err(refused) => clap::Error::from(refused),
    }
}

/// Whether `--stop` is set.
#[tactic(auto, using(crate::proofs::CommandLine::stop_in_rows))]
fn is_stop_set(matches: &ArgMatches<'_>) -> bool
    ensures { IsTrue result ↔ (first_of (codes "stop") (rows_of (found_of matches.now)) ≡ Some (codes "true")) }
{
    match matches.get_str("stop") {
        Some(value) => value == "true",
        None => false,
    }
}

/// A copy of FILE.
#[tactic(auto, using(crate::proofs::CommandLine::file_in_rows))]
fn named_file(alloc: Global, matches: &ArgMatches<'_>) -> Result<Option<String>, AllocError>
    ensures file { IfOk result (λ file. option_map string_bytes file ≡ first_of (codes "FILE") (rows_of (found_of matches.now))) }
    ensures named { IfErr result (λ _. first_of (codes "FILE") (rows_of (found_of matches.now)) ≢ None) }
{
    match matches.get_str("FILE") {
        Some(name) => Ok(Some(String::from_str(alloc, name)?)),
        None => Ok(None),
    }
}

/// Reads the words of a command line, the first of which is the program's name: `gwb [--stop] [FILE]`.
///
/// `WordsFault::Line` holds clap's text: that of a mistake in the words, or what `--help` or `--version` ask for. If memory was refused, the fault is
/// `Line` with clap's kind `OutOfMemory`; or it is `Memory` if clap had no cause to refuse the words, and the FILE that they name could not be
/// copied.
pub fn read_words(alloc: Global, words: &[String]) -> Result<Choice, WordsFault>
    ensures choice { IfOk result (Chosen (matches_of command_line (map string_bytes words.now))) }
    ensures fault { Fails command_line (map string_bytes words.now) result }
{
    let matches = parse(alloc, words).map_err(WordsFault::Line)?;
    let file = named_file(alloc, &matches).map_err(WordsFault::Memory)?;
    Ok(Choice {
        stop: is_stop_set(&matches),
        file,
    })
}
