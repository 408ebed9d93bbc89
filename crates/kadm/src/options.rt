//! The options that several commands have.

use command_line::{FlagRow, OptionRow, Times};

pub(crate) const DATABASE: OptionRow = OptionRow {
    name: "db",
    shape: "FILE",
    help: "The database of the realm; by default the file that KADM_DB names in the environment",
    times: Times::Once,
};

pub(crate) const NAME: OptionRow = OptionRow {
    name: "name",
    shape: "NAME",
    help: "The principal's name, without its realm",
    times: Times::Once,
};

pub(crate) const NAMES: OptionRow = OptionRow {
    name: "name",
    shape: "NAME",
    help: "A principal's name, without its realm; with more of them, each is changed, or none",
    times: Times::AtLeastOnce,
};

pub(crate) const PASSWORD: OptionRow = OptionRow {
    name: "password-file",
    shape: "FILE",
    help: "The file whose first line is the password, at most 1,024 bytes; by default it is read from standard input",
    times: Times::AtMostOnce,
};

pub(crate) const TYPES: OptionRow = OptionRow {
    name: "types",
    shape: "TYPES",
    help: "The encryption types of the keys, in the order of preference; the default is 18,17,20,19",
    times: Times::AtMostOnce,
};

pub(crate) const REPLACES: FlagRow = FlagRow {
    name: "replace",
    help: "Drops all older key versions in the same change, as after a theft",
};

pub(crate) const ANY_PASSWORDS: FlagRow = FlagRow {
    name: "any-password",
    help: "Accepts a password that is empty or ends in a carriage return",
};

pub(crate) const WHOLE_REALM: FlagRow = FlagRow {
    name: "whole-realm",
    help: "Allows a change of krbtgt/REALM after which nobody can log in, or its password can be guessed",
};

pub(crate) const KEEPS_MODE: FlagRow = FlagRow {
    name: "keep-mode",
    help: "Leaves the mode of the changed file as it is; by default only its owner may then read and write it",
};
