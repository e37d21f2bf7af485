//! The two kinds of stations: the base is a file, or it is a folder. Each promises what `station` asks of a kind.
//!
//! Begin with `file_station` and `folder_station`. For a base file: `entries` (its messages stay in it) with
//! `entry_opening`, `entry_lookups`, `entry_adding`, `entry_saving` and `entry_calls`. `held` and `file_store` have a base
//! in memory too. `saving` replaces the file, `loading` reads the link file and the base file, and `lending`
//! uses the disk for other files. For a base folder: `place` (its path), `opening` (its files, locked and opened),
//! `beginning` (the folder as a store) and `folder_lending`.
#![tactic(auto)]

mod beginning;
mod entries;
mod entry_adding;
mod entry_calls;
mod entry_lookups;
mod entry_opening;
mod entry_saving;
mod file_station;
mod file_store;
mod folder_lending;
mod folder_station;
mod held;
mod lending;
mod loading;
mod opening;
mod place;
mod saving;

pub use entries::Entries;
pub use file_station::FileStation;
pub use file_store::FileStore;
pub use folder_lending::FolderPaths;
pub use folder_station::FolderStation;
pub use held::Held;
pub use lending::FilePaths;
pub use place::{FolderPlace, FolderProbe};
