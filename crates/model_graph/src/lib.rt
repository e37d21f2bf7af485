//! Graphs: members joined by links that go both ways, with no link from a member to itself. `laws` says: every cycle
//! is fully linked exactly where each member parts those of its links that are not linked. Begin with `laws`; of
//! specs/ read `Walk`, `Cycle`, `Beyond` and `Renaming`.
#![tactic(auto)]

mod block_loops;
mod blocks;
mod depth;
mod division;
mod fullness;
mod graph;
mod laws;
mod levels;
mod parts;
mod pinching;
mod polygons;
mod reach;
mod ring;
mod sound;
mod writing;

pub use block_loops::find_loops;
pub use graph::{Graph, Links};
pub use laws::{
    along_ways, cycle_written_anew, first_step, further_out, one_way, other_names,
    polygons_where_parted,
};
pub use parts::{first_members, part_labels};
pub use pinching::Pinch;
pub use polygons::{Loop, find_loop};
pub use reach::unreached;
pub use sound::is_graph;
