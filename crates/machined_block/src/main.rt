#![tactic(auto)]
//! Says what the blocks of `block_machining` measure. Each number is proved before it is written: if a `prove!` didn't hold, the program
//! would not compile. No command in it is refused: the only possible error is refused memory.

use block_machining::{bar, joined_again, measured, parted, three_blocks};
use std::alloc::AllocError;
use std::process::ExitCode;

/// Says how large the three blocks are.
fn tell_blocks(rt: &HostRuntime) -> Result<(), AllocError> {
    let session = three_blocks(rt.alloc())?;
    let first = measured(&session, 1) / 6;
    let second = measured(&session, 2) / 6;
    let third = measured(&session, 3) / 6;
    prove!(first == 24 && second == 6 && third == 8);
    let _ = println!(rt; "three blocks: volumes of {first}, {second} and {third}");
    Ok(())
}

/// Says how large the bar of the first two blocks is.
fn tell_bar(rt: &HostRuntime) -> Result<(), AllocError> {
    let session = bar(rt.alloc())?;
    let volume = measured(&session, 1) / 6;
    prove!(volume == 30);
    let _ = println!(rt; "two of them glued to a bar: a volume of {volume}");
    Ok(())
}

/// Says how large the parts of the bar are after it is cut, and that the third block is as large as it was.
fn tell_parts(rt: &HostRuntime) -> Result<(), AllocError> {
    let session = parted(rt.alloc())?;
    let (near, far) = (measured(&session, 1) / 6, measured(&session, 2) / 6);
    let third = measured(&session, 3) / 6;
    prove!(near == 12 && far == 18);
    prove!(third == 8);
    let _ = println!(rt;
        "the bar cut: volumes of {near} and {far}, and the third block of {third}"
    );
    Ok(())
}

/// Says how large the bar is after the cut is taken back.
fn tell_undone(rt: &HostRuntime) -> Result<(), AllocError> {
    let session = joined_again(rt.alloc())?;
    let volume = measured(&session, 1) / 6;
    prove!(volume == 30);
    let _ = println!(rt; "the cut taken back: a volume of {volume}");
    Ok(())
}

fn main(rt: HostRuntime) -> ExitCode {
    let told = tell_blocks(&rt)
        .and_then(|()| tell_bar(&rt))
        .and_then(|()| tell_parts(&rt))
        .and_then(|()| tell_undone(&rt));
    if told.is_ok() {
        ExitCode::SUCCESS
    } else {
        ExitCode::FAILURE
    }
}
