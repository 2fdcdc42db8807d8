//! What the programs that show clients and servers over loopback share: how such a program starts itself once more as
//! another, where servers listen, what is shown of what was started, and asks that are sealed.
#![tactic(auto)]

mod calling;
mod ending;
mod heard;
mod places;
mod sealing;
mod starting;

pub use calling::{
    answer_of, call_on, call_slowly, first_answer_of, print_answer, print_first_answer,
};
pub use ending::{print_ended, print_ended_at, print_ended_behind};
pub use heard::Heard;
pub use places::{
    IMAGE, LOCK, NEW, OTHER, SERVED, SERVED_LOCK, WORK, address_of, bound, everywhere, forget,
    free_address,
};
pub use sealing::{
    ClientKey, FIRST_KEY, KEY, KEY_FOLDER, KEYS, OWNERS_ALONE, SECOND_KEY, SealedAsk, THIRD_KEY,
    ask_plainly, ask_sealed, keep_keys, write_with_rights,
};
pub use starting::{
    CLIENT, NO_TERMINALS, SERVER, client_command, command_by, command_of, lone_client_by,
    lone_client_command, run_client, run_lone_client, run_on, run_with, spawned, start_client_at,
    start_with, started, type_input, type_to,
};
