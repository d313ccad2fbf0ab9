// Plans: where the closure of each procedure is kept.

/// Where the closure of a procedure is kept (Kranz 1988, on closure strategies): nowhere, its calls being jumps to its code (`Label`), or
/// its one call going on there (`Open`); in a frame (`Stack`); in the heap (`Heap`); or in static storage, one for all (`Static`).
#[derive(Clone, Copy, PartialEq, Eq, Debug)]
pub enum Strategy {
    Label,
    Open,
    Stack,
    Heap,
    Static,
}

/// The strategy of the procedure at each place, and the number of its template. Procedures with one number are all of one strategy, and
/// may share a record.
#[derive(Drop)]
pub struct Plan {
    pub of: Vec<Strategy>,
    pub template: Vec<u32>,
}
