//! Tests of the data of a realm: rows, the database, replay caches, preauthentication, and the times of tickets.

mod changes;
mod database_texts;
mod databases;
mod fixtures;
mod journal_files;
mod journals;
mod replays;
mod rows;
mod times;
mod timestamps;
