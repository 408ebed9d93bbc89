//! What a program uses of its system, whatever the program does: its files and their locks, seeds and passwords, its
//! variables of the environment, its clock; and the version of all programs.
//!
//! ```
//! let octets = match read_file(rt.alloc(), &mut FileStore::new(rt), path) {
//!     Ok(octets) => octets,
//!     Err(fault) => return report_end(rt, "kadm", &fault, fault.cause.refusal()),
//! };
//! ```
//!
//! A program uses a [`Store`] for its files, and for what it takes if no file is named: random bytes, and a password
//! from standard input. [`FileStore`] is the file system; [`MemoryStore`] keeps its files in memory, for a test. A
//! fault says which file it concerns.
//!
//! It does not read a command line (`command_line` does) or open sockets (`kdc_sockets` and `client_sockets` do). The
//! files of a server's database, seed and journal are in `kdc_files`.
#![tactic(auto)]

mod callers;
mod canonical_paths;
mod counting;
mod faults;
mod folders;
mod growing_files;
mod hidden_echo;
mod inputs;
mod locks;
mod memory_files;
mod memory_store;
mod moment;
mod new_files;
mod placing;
mod plain_files;
mod reading;
mod running_user;
mod stamp;
mod store;
mod system_store;
mod variable;
mod version;

pub use crate::callers::{Caller, name_of_user};
pub use crate::counting::{counted, counted_write};
pub use crate::faults::{FileError, PathError};
pub use crate::folders::{folder_of, sync_folder};
pub use crate::inputs::{
    CLOCK, RANDOM_OCTETS, STANDARD_INPUT, ask_password, draw_seed, file_rights, first_octet,
    has_file, lock_file, password_of, read_at_most, read_clock, read_file, read_or_draw_seed,
    read_password, read_seed, read_stream, seed_of, update_file, write_file, write_unsynced,
};
pub use crate::locks::{LOCK_END, hold_lock};
pub use crate::memory_store::{MemoryStore, WriteEnd};
pub use crate::moment::now;
pub use crate::placing::{
    CALLER, canonical_path, discard_file, place_file, prepare_file, read_caller,
};
pub use crate::plain_files::{
    OWNER_ONLY, RIGHTS, RIGHTS_OF_OTHERS, is_own, open_by_options, open_plain, own_user,
};
pub use crate::reading::read_within;
pub use crate::stamp::FileStamp;
pub use crate::store::{FileRights, LONGEST_FILE, NewMode, Store, Written};
pub use crate::system_store::{FileStore, random_octets};
pub use crate::variable::Variable;
pub use crate::version::VERSION;
