//! Why a call of the neighbour cache is refused.

/// Why a call of the neighbour cache is refused. Nothing has changed then.
#[derive(Clone, Copy, Debug, PartialEq, Eq)]
pub enum CacheRefusal {
    /// There is no room for a new neighbour: the table is full, and no neighbour is STALE.
    Full = 1,
    /// Out of memory: the allocator refused the ring for the packets of a new neighbour.
    Memory = 2,
}
