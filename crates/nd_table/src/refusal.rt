/// A table that has a limit.
#[derive(Clone, Copy, Debug, PartialEq, Eq)]
pub enum Limit {
    /// Default routers.
    Routers,
    /// Prefixes on the link.
    Prefixes,
    /// DNS servers.
    Servers,
    /// Search names.
    Names,
}

/// Why a call of a table is refused. Nothing has changed then.
#[derive(Clone, Copy, Debug, PartialEq, Eq)]
pub enum TableRefusal {
    /// There is no room: the announcements of a message, taken in order, pass this table's limit at some point.
    Full(Limit),
    /// The allocator refused memory.
    Memory,
}
