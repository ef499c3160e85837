//! Tests of the libraries: calls that no script makes, and readers and writers that cut and fail.
//!
//! What a script can say is a file of `tests/scripts`, which `tests/scripts.py` runs on the built program; what a run meets there is
//! tried by `tests/program.sh`.

mod records;
mod runs;
mod sessions;
mod streams;
