// The words of a node, stored as far as there is room: as `trees` stores them.

pub(crate) use trees::words::store_node;
