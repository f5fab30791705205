//! The public calls of what reads words and files, puts documents together and writes tables, under their own contracts, over which wrong bodies are tried.
#![tactic(auto)]

mod checkpoints;
mod files;
mod lines;
mod nests;
mod tables;
mod texts;

pub use checkpoints::{load_held_run, put_held, read_held};
pub use files::load_files;
pub use lines::read_line;
pub use nests::{inline_document, next_of};
pub use tables::tell_table;
pub use texts::{put_head, put_last_line, put_one_instant, read_next};
