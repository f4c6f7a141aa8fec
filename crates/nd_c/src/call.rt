//! The session that a call takes out of its slot, and puts back.

/// Evaluates to the status of a call at a moment, which has the session of the slot by the name that is given; the session is put back then. Returns from the
/// function around it with ND_INVALID if the moment is out of range, and with ND_CLOSED if there is no session in the slot.
macro_rules! with_session {
    ($alloc:ident, $node:ident, $now:ident, $session:ident => $status:expr) => {{
        if $now >= nd_c_types::MOMENT_LIMIT {
            return crate::status::INVALID;
        }
        let Some(mut $session) = $node.take($alloc) else {
            return crate::status::CLOSED;
        };
        let status = $status;
        $node.put($session);
        status
    }};
}

pub(crate) use with_session;
