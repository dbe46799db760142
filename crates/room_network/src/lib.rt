//! Networks of rooms: what is rearranged, stage by stage, and what is measured of it, apart.
#![tactic(auto)]

mod measure;
mod network;
mod numbers;
mod rooms;

pub use measure::Measure;
pub use network::RoomNetwork;
pub use numbers::{FromScalar, Operation, ScalarMeasure};
pub use rooms::Rooms;
