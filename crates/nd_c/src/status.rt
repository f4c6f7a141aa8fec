//! The statuses of the calls: `enum nd_status` of the header. Their definitions are in `specs/Status.antt`.

pub(crate) use nd_heard::header::{
    CLOSED, DONE, INVALID, NO_MEMORY, NO_ROOM, NOTHING, PAST, WAITING,
};
