use hc_canon::EntryId;
use hc_fault::ItemList;
use hc_signal::NodeId;

/// Where an occurrence of an entry is laid: the numbers of its first node and of its first memory, and the nodes that its
/// inputs are connected to; none at the top.
#[derive(Drop)]
pub struct Place {
    pub nodes: u32,
    pub memories: u32,
    pub inputs: Option<ItemList<NodeId>>,
}

/// The occurrence of an instance: its entry and its place.
#[derive(Drop)]
pub struct Kid {
    pub entry: EntryId,
    pub place: Place,
}
