// An arc as it is kept, linked to the arc before it that leads to the same room.

/// From the nodes of one room, from a place to before another, to one room of the next stage.
/// Behind `next` stands the arc before it that leads to the same room; 0 where there is none.
#[derive(Clone, Copy, Drop)]
pub struct Link {
    pub start: usize,
    pub end: usize,
    pub weight: u128,
    pub target: usize,
    pub next: usize,
}
