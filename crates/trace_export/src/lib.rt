//! A trace as a table (CSV), as waves (VCD) and as a picture (SVG), and two traces compared.
#![tactic(auto)]

mod cells;
mod columns;
mod comparing;
mod drawing;
mod fault;
mod fields;
mod output;
mod panels;
mod reals;
mod seconds;
mod table;
mod text;
mod waves;

pub use cells::Form;
pub use columns::{Column, columns_of};
pub use comparing::{Tolerance, compare};
pub use drawing::write_plot;
pub use fault::{CompareFault, ViewFault};
pub use output::Output;
pub use reals::{RealPort, read_real_list};
pub use seconds::append_seconds;
pub use table::{append_row, write_table};
pub use waves::{count_digits, write_waves};
