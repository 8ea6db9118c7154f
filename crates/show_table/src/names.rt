// The rows' keys and titles: each in one string, in the order of the rows, with a bar between two.
ghost use Rattle.std.specs.Prelude.{◌≡◌, ◌≤◌, ◌<◌, ◌-◌, length, take, drop};
ghost use Rattle.text.specs.Ascii.{ascii};
ghost use Rattle.show_table.specs.Names.{bars_in, behind_bars, until_bar, name_at};
ghost use Rattle.show_table.specs.Shown.{line_at};

use text::Text;

fn bars_in(b: u8) -> usize
    ensures { (result ≡ bars_in b) × (result ≤ 1) }
{
    if b == b'|' {
        return 1;
    }
    0
}

// Where name `n` starts: behind as many bars, or at the end.
fn start_of(names: &[u8], n: usize) -> usize
    ensures { (result ≤ length names.now) × (drop result names.now ≡ behind_bars n names.now) }
{
    let mut bars = n;
    for (at, b) in names.iter().enumerate() {
        if bars == 0 {
            return at;
        }
        bars -= bars_in(*b);
    }
    names.len()
}

// Where the name that starts at `from` ends.
fn end_of(names: &[u8], from: usize) -> usize
    requires { from ≤ length names.now }
    ensures { (from ≤ result) × (result ≤ length names.now) × (take (result - from) (drop from names.now) ≡ until_bar (drop from names.now)) }
{
    for at in from..names.len() {
        if names[at] == b'|' {
            return at;
        }
    }
    names.len()
}

// Name `n`; no name has more than 40 bytes.
fn name_at(names: &[u8], n: usize) -> Text
    requires { length (name_at n names.now) ≤ 40 }
    ensures { result ≡ name_at n names.now }
{
    let from = start_of(names, n);
    let to = end_of(names, from);
    Text::of(&names[from..to])
}

// The key of row `i`, in JSON; behind the last row none.
pub fn key_at(i: usize) -> Text
    ensures { (length result ≤ 40) × (result ≡ ascii (line_at i).key) }
{
    if 100 <= i {
        return Text::new();
    }
    name_at(
        b"header|host|subsystem|hfi|discovery|security|unused|\
          oem_id|oem_table_id|oem_revision|creator_id|creator_revision|driver_signature|\
          nqn|id|host_id_configured|host_nqn_configured|primary_admin_host_flag|flags|primary_admin_host|\
          index|num_hfis|hfis|transport|traddr|trsvcid|subsys_port_id|nsid|nid_type|nid|subsys_nqn|\
          controller_id|asqsz|dhcp_root_path_string|pdu_header_digest_required|data_digest_required|\
          discovered|unavailable|flags|transport_flags|not_bootable|root_path_used|separate_discovery|\
          availability|transport_flags_used|discovery|security|primary_hfi|secondary_hfis|traddr_bytes|\
          trsvcid_bytes|namespace_id|nid_type_number|nid_bytes|extended_info_flags|\
          extended_info_controller_id|extended_info_asqsz|\
          index|transport|pcidev|mac_addr|vlan|ip_origin|ipaddr|subnet_mask_prefix|gateway_ipaddr|\
          route_metric|primary_dns_ipaddr|secondary_dns_ipaddr|dhcp_server_ipaddr|host_name|\
          this_hfi_is_default_route|dhcp_override|pci_address|info_version|flags|autoconfigured|record_flags|\
          extended_info_flags|iaid|duid|\
          index|security|hfi|uri|nqn|flags|\
          index|flags|secret_type|authentication|secure_channel|protocols_chosen_by|protocols|\
          algorithms_chosen_by|algorithms|cipher_suites|dh_groups|hash_functions|keypath",
        i,
    )
}

// Its title, or its words, for people.
pub fn title_at(i: usize) -> Text
    ensures { (length result ≤ 40) × (result ≡ ascii (line_at i).title) }
{
    if 100 <= i {
        return Text::new();
    }
    name_at(
        b"NBFT Header|NBFT Host|NBFT Subsystems|NBFT HFIs|NBFT Discovery Controllers|NBFT Security||\
          OEM ID|OEM Table ID|OEM Revision|Creator ID|Creator Revision|Driver Signature|\
          NQN|Host ID|host ID configured|host NQN configured||flags|primary administrative host|\
          Idx||HFIs|Trsp|Address|SvcId|port ID||NID type|NID|NQN|controller ID|admin queue size|\
          DHCP root path|header digest|data digest|discovered||flags|transport flags|not bootable|\
          root path used|separate discovery|availability|transport flags used|discovery|security|primary HFI|\
          secondary HFIs|address bytes|service bytes|NSID|NID type number|NID bytes|extended info flags|\
          extended controller ID|extended admin queue size|\
          Idx|Trsp||MAC Addr|VLAN|IP origin|IP Addr|Mask|Gateway|route metric|DNS|secondary DNS|DHCP server|\
          host name|default route|DHCP|PCI Addr|info version|flags|autoconfigured|record flags|\
          extended info flags|IAID|DUID|\
          Idx|security|HFI|URI|NQN|flags|\
          Idx|Flags|secret type|authentication|secure channel|protocols chosen by|Auths|algorithms chosen by|\
          Channels|Ciphers|Groups|Hashes|Keypath",
        i,
    )
}
