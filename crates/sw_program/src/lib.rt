//! What the program does once its words are read: it makes a run over files, or a shell, and hands on the other commands.
#![tactic(auto)]

mod logging;
mod running;
mod shelling;
mod terminal;

pub use running::Run;
pub use shelling::Shell;
pub use sw_cli::{status, write_fault};
pub use sw_commands::{
    Clash, Description, Failure, Form, Import, Limit, Ordering, Place, Script, Settings, Sights,
    Telling, Way, check_path, explain,
};
pub use sw_import::{Asked, Blank, How, Long, Rules, Times};
pub use sw_lang::write_all as write_text;
pub use sw_rows::Refusal;
