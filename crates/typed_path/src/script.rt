//! Lines of commands, and the replies to them.

mod answer;
mod lines;
mod run;

pub use answer::{Failed, Sink, Source, StdSink, StdSource, answer_lines, exit_status};
pub use run::{End, PathOp, Reply, read_ends, run_ops};
