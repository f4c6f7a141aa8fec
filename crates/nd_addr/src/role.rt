/// The role of a node on its link (RFC 4861, section 2.1).
#[derive(Clone, Copy, Debug, PartialEq, Eq)]
pub enum Role {
    /// It takes what routers advertise.
    Host,
    /// It sends on what is not for itself, and takes the Router Solicitations of hosts.
    Router,
}
