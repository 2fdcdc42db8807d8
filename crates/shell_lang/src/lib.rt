//! The lines of the shell: their words and commands, and the texts of their answers.
#![tactic(auto)]

mod answer;
mod command;
mod fault_text;
mod laws;
mod line;
mod lines;
mod text;
mod value;
mod words;

pub use answer::{Child, Children, Fault, LineAnswer, has_no_memory};
pub use command::{put_content, read_line};
pub use fault_text::put_fault_text;
pub use laws::{
    bad_words_are_refused, inputs_are_cut_alike_in_pieces, inputs_are_cut_at_line_ends,
    lines_have_one_reading, only_quit_quits, read_words_are_spelled, spelled_words_are_read,
};
pub use line::{Line, LineError};
pub use lines::LineBuffer;
pub use text::text_of;
pub use value::{put_decimal, put_number, put_path};
