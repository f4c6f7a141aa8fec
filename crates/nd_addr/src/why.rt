ghost use Rattle.std.specs.Prelude.{◌≡◌};
ghost use Rattle.nd_addr.specs.Why.{number_of, name_of};

/// Why a frame is dropped. The numbers and names of the reasons are our choice.
#[derive(Clone, Copy, Debug, PartialEq, Eq)]
pub enum Why {
    /// Fewer than the 14 bytes of an Ethernet header (RFC 2464, section 3).
    FrameShort = 1,
    /// An Ethernet type other than that of IPv6 (RFC 2464, section 3).
    NotIpv6 = 2,
    /// Fewer than the 40 bytes of an IPv6 header (RFC 8200, section 3).
    HeaderShort = 3,
    /// A version other than 6 (RFC 8200, section 3).
    Version = 4,
    /// Fewer bytes than the payload length says (RFC 8200, section 3).
    PayloadShort = 5,
    /// An ICMPv6 code other than 0 (RFC 4861, sections 6.1, 7.1, 8.1).
    Code = 6,
    /// A message shorter than its kind (RFC 4861, sections 6.1, 7.1, 8.1).
    Length = 7,
    /// An option of length 0 (RFC 4861, section 4.6).
    OptionZero = 8,
    /// An option that is not complete (RFC 4861, section 4.6), also a single byte after the last one.
    OptionOver = 9,
    /// A hop limit other than 255 (RFC 4861, sections 6.1, 7.1, 8.1).
    HopLimit = 10,
    /// A bad ICMPv6 checksum (RFC 4443, section 2.3).
    Sum = 11,
    /// A source that is not link-local in a Router Advertisement or a Redirect (RFC 4861, sections 6.1.2 and 8.1), or a multicast source in any
    /// message (our choice).
    Source = 12,
    /// A multicast target of a solicitation or advertisement (RFC 4861, sections 7.1.1 and 7.1.2).
    Target = 13,
    /// A source link-layer address from the unspecified address (RFC 4861, sections 6.1.1 and 7.1.1).
    UnspecifiedSlla = 14,
    /// A solicitation from the unspecified address to no solicited-node address (RFC 4861, section 7.1.1).
    NotSolicitedNode = 15,
    /// An advertisement to a multicast address that says it was solicited (RFC 4861, section 7.1.2).
    SolicitedMulticast = 16,
    /// A redirect target that is neither link-local nor the destination (RFC 4861, section 8.1).
    RedirectTarget = 17,
    /// A redirect for a multicast destination (RFC 4861, section 8.1).
    RedirectDestination = 18,
    /// A message that is not for this node: to a host a Router Solicitation, to a router a Router Advertisement or a Redirect (RFC
    /// 4861, sections 6.2.6, 6.3.4 and 8.2).
    NotForUs = 19,
    /// A redirect from a node that is not the first hop of its destination (RFC 4861, section 8.1).
    NotFirstHop = 20,
}

impl Why {
    /// Returns the number by which it is reported, 1 to 20.
    pub fn number(self) -> u8
        ensures { result ≡ number_of self }
    {
        self as u8
    }

    /// Returns the name by which it is reported.
    pub fn name(self) -> &'static str
        ensures { result.now ≡ name_of self }
    {
        match self {
            Why::FrameShort => "FrameShort",
            Why::NotIpv6 => "NotIpv6",
            Why::HeaderShort => "HeaderShort",
            Why::Version => "Version",
            Why::PayloadShort => "PayloadShort",
            Why::Code => "Code",
            Why::Length => "Length",
            Why::OptionZero => "OptionZero",
            Why::OptionOver => "OptionOver",
            Why::HopLimit => "HopLimit",
            Why::Sum => "Sum",
            Why::Source => "Source",
            Why::Target => "Target",
            Why::UnspecifiedSlla => "UnspecifiedSlla",
            Why::NotSolicitedNode => "NotSolicitedNode",
            Why::SolicitedMulticast => "SolicitedMulticast",
            Why::RedirectTarget => "RedirectTarget",
            Why::RedirectDestination => "RedirectDestination",
            Why::NotForUs => "NotForUs",
            Why::NotFirstHop => "NotFirstHop",
        }
    }
}
