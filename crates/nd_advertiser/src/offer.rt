ghost use Rattle.std.specs.Prelude.{None, ◌≡◌};
ghost use Rattle.nd_advertiser.specs.Config.{unless};
ghost use Rattle.nd_decode.specs.declared.prefix_info.PrefixInfo.{PrefixInfo};
ghost use Rattle.nd_advertiser.specs.Offer.{offer_fault};

use crate::config_fault::ConfigFault;
use nd_addr::Prefix;
use nd_decode::PrefixInfo;
use std::marker::Model;

/// The flags of an advertised prefix (RFC 4861, section 4.6.2).
#[derive(Clone, Copy, Debug, PartialEq, Eq)]
pub struct OfferFlags {
    /// AdvOnLinkFlag: its addresses are on the link.
    pub on_link: bool,
    /// AdvAutonomousFlag: a host may form an address from it.
    pub autonomous: bool,
}

/// A prefix that a router advertises (RFC 4861, section 6.2.1, AdvPrefixList). It breaks none of that section's rules.
#[derive(Clone, Copy, Debug, PartialEq, Eq)]
pub struct Offer {
    info: PrefixInfo,
}

impl Model for Offer {
    ghost use Rattle.std.specs.Prelude.{None, ◌≡◌};
    ghost use Rattle.nd_decode.specs.declared.prefix_info.PrefixInfo.{PrefixInfo};
    ghost use Rattle.nd_advertiser.specs.Offer.{offer_fault};

    ghost Value = { PrefixInfo };

    ghost view = { λ o. o.info };

    ghost invariant = { λ o. offer_fault o.info ≡ None };

    ghost inverse = { λ info. record { info = info } };
}

impl Offer {
    /// Returns an offer of a prefix, with AdvValidLifetime and AdvPreferredLifetime in seconds, all ones for infinity. Returns the first rule that
    /// is broken as an error: `Preferred` or `Prefix`.
    pub fn new(
        prefix: Prefix,
        valid_lifetime: u32,
        preferred_lifetime: u32,
        flags: OfferFlags,
    ) -> Result<Offer, ConfigFault>
        ensures { let info : PrefixInfo = record { prefix = prefix; on_link = flags.on_link; autonomous = flags.autonomous; valid_lifetime = valid_lifetime; preferred_lifetime = preferred_lifetime } in
            result ≡ unless (offer_fault info) info }
    {
        if preferred_lifetime > valid_lifetime {
            return Err(ConfigFault::Preferred);
        }
        let address = prefix.address();
        if address.is_link_local() || address.is_multicast() {
            return Err(ConfigFault::Prefix);
        }
        Ok(Offer {
            info: PrefixInfo {
                prefix,
                on_link: flags.on_link,
                autonomous: flags.autonomous,
                valid_lifetime,
                preferred_lifetime,
            },
        })
    }

    /// Returns the prefix option of the offer.
    pub fn info(&self) -> PrefixInfo
        ensures value { result ≡ self.now }
        ensures right { offer_fault self.now ≡ None }
    {
        self.info
    }
}
