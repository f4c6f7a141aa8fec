ghost use Rattle.std.specs.Prelude.{◌≡◌, ◌++◌, OnOk, string_bytes};
ghost use Rattle.std.specs.List.{flat_map};
ghost use Rattle.nd_search_list.specs.NamesLeft.{names_left};
ghost use Rattle.nd_decode.specs.OptionKept.{view};
ghost use Rattle.nd_decode.specs.Option as options;
ghost use Rattle.nd_decode.specs.Pieces.{options_left};
ghost use Rattle.nd_decode.specs.ServersKept.{servers_left};
ghost use Rattle.ndpctl_check.specs.OptionText.{lifetimes_text, behind_prefix_text, server_text, search_text, option_text};

use crate::words::{write_count, write_number};
use nd_decode::{Names, OptionRef, Options, PrefixInfo, Servers, prefix_flags_text};
use nd_text::write_hex;
use std::alloc::{AllocError, Allocator};

/// Writes the two times of a Prefix Information.
fn write_lifetimes<A: Allocator>(text: &mut String<A>, info: &PrefixInfo) -> Result<(), AllocError>
    ensures { OnOk result (string_bytes text.new ≡ string_bytes text.old ++ lifetimes_text info.now) }
{
    write_number(text, " ", info.valid_lifetime)?;
    write_number(text, " ", info.preferred_lifetime)
}

/// Writes the flags and the times of a Prefix Information.
fn write_behind_prefix<A: Allocator>(
    text: &mut String<A>,
    info: &PrefixInfo,
) -> Result<(), AllocError>
    ensures { OnOk result (string_bytes text.new ≡ string_bytes text.old ++ behind_prefix_text info.now) }
{
    text.push_str(" ")?;
    text.push_str(prefix_flags_text(info.on_link, info.autonomous))?;
    write_lifetimes(text, info)
}

/// Writes a Prefix Information.
fn write_prefix<A: Allocator>(text: &mut String<A>, info: &PrefixInfo) -> Result<(), AllocError>
    ensures { OnOk result (string_bytes text.new ≡ string_bytes text.old ++ option_text (options.prefix info.now)) }
{
    text.push_str(" prefix ")?;
    info.prefix.write_text(text)?;
    write_behind_prefix(text, info)
}

/// Writes addresses, with a space before each.
fn write_each_server<A: Allocator>(
    text: &mut String<A>,
    servers: Servers<'_>,
) -> Result<(), AllocError>
    ensures { OnOk result (string_bytes text.new ≡ string_bytes text.old ++ flat_map server_text (servers_left servers.entry)) }
{
    for server in servers {
        text.push_str(" ")?;
        server.write_text(text)?;
    }
    Ok(())
}

/// Writes a Recursive DNS Server.
fn write_servers<A: Allocator>(
    text: &mut String<A>,
    lifetime: u32,
    servers: Servers<'_>,
) -> Result<(), AllocError>
    ensures { OnOk result (string_bytes text.new ≡ string_bytes text.old ++ option_text (options.rdnss lifetime (servers_left servers.entry))) }
{
    write_number(text, " rdnss ", lifetime)?;
    write_count(text, " ", servers.len())?;
    write_each_server(text, servers)
}

/// Writes names, with a space before each.
fn write_each_name<A: Allocator>(text: &mut String<A>, names: Names<'_>) -> Result<(), AllocError>
    ensures { OnOk result (string_bytes text.new ≡ string_bytes text.old ++ flat_map search_text (names_left names.entry)) }
{
    for name in names {
        text.push_str(" ")?;
        name.write_text(text)?;
    }
    Ok(())
}

/// Writes a DNS Search List.
fn write_names<A: Allocator>(
    text: &mut String<A>,
    lifetime: u32,
    names: Names<'_>,
) -> Result<(), AllocError>
    ensures { OnOk result (string_bytes text.new ≡ string_bytes text.old ++ option_text (options.dnssl lifetime (names_left names.entry))) }
{
    write_number(text, " dnssl ", lifetime)?;
    write_count(text, " ", names.len())?;
    write_each_name(text, names)
}

/// Writes the number of bytes that a Redirected Header has of its packet.
fn write_redirected<A: Allocator>(text: &mut String<A>, packet: &[u8]) -> Result<(), AllocError>
    ensures { OnOk result (string_bytes text.new ≡ string_bytes text.old ++ option_text (options.redirected packet.now)) }
{
    write_count(text, " redirected ", packet.len())
}

/// Writes an option, with a space before it.
fn write_option<A: Allocator>(
    text: &mut String<A>,
    option: &OptionRef<'_>,
) -> Result<(), AllocError>
    ensures { OnOk result (string_bytes text.new ≡ string_bytes text.old ++ option_text (view option.now)) }
{
    match option {
        OptionRef::Slla(mac) => {
            text.push_str(" slla ")?;
            mac.write_text(text)
        }
        OptionRef::Tlla(mac) => {
            text.push_str(" tlla ")?;
            mac.write_text(text)
        }
        OptionRef::Prefix(info) => write_prefix(text, info),
        OptionRef::Redirected(packet) => write_redirected(text, packet),
        OptionRef::Mtu(mtu) => write_number(text, " mtu ", *mtu),
        OptionRef::Rdnss(lifetime, servers) => write_servers(text, *lifetime, *servers),
        OptionRef::Dnssl(lifetime, names) => write_names(text, *lifetime, *names),
        OptionRef::Other(kind, bytes) => {
            write_number(text, " opt ", *kind as u32)?;
            text.push_str(" ")?;
            write_hex(text, bytes)
        }
    }
}

/// Writes the options of a message in their order.
pub(crate) fn write_options<A: Allocator>(
    text: &mut String<A>,
    options: Options<'_>,
) -> Result<(), AllocError>
    ensures { OnOk result (string_bytes text.new ≡ string_bytes text.old ++ flat_map option_text (options_left options.entry)) }
{
    for option in options {
        write_option(text, &option)?;
    }
    Ok(())
}
