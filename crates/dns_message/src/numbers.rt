//! The numbers of the standard: kinds and classes of records, the bits of a header's flags, and response codes.

ghost use Rattle.std.specs.Prelude.{◌≡◌};
ghost use Rattle.dns_message.specs.Numbers.{kind_a, kind_ns, kind_cname, kind_soa, kind_ptr, kind_hinfo};
ghost use Rattle.dns_message.specs.Numbers.{kind_mx, kind_txt, kind_aaaa, kind_srv, kind_opt, kind_any};
ghost use Rattle.dns_message.specs.Numbers.{class_in, class_ch, class_any};
ghost use Rattle.dns_message.specs.Numbers.{flag_qr, flags_opcode, flag_aa, flag_tc, flag_rd, flag_ra, flags_z, flags_rcode};
ghost use Rattle.dns_message.specs.Numbers.{rcode_no_error, rcode_format_error, rcode_server_failure, rcode_name_error};
ghost use Rattle.dns_message.specs.Numbers.{rcode_not_implemented, rcode_refused};

/// A: an address of IPv4 (RFC 1035, section 3.2.2).
pub const KIND_A: u16 = 1;

/// NS: a name server (RFC 1035, section 3.2.2).
pub const KIND_NS: u16 = 2;

/// CNAME: the name that an alias stands for (RFC 1035, section 3.2.2).
pub const KIND_CNAME: u16 = 5;

/// SOA: where a zone begins (RFC 1035, section 3.2.2).
pub const KIND_SOA: u16 = 6;

/// PTR: a pointer to a name (RFC 1035, section 3.2.2).
pub const KIND_PTR: u16 = 12;

/// HINFO: what a host is (RFC 1035, section 3.2.2).
pub const KIND_HINFO: u16 = 13;

/// MX: where mail goes (RFC 1035, section 3.2.2).
pub const KIND_MX: u16 = 15;

/// TXT: strings (RFC 1035, section 3.2.2).
pub const KIND_TXT: u16 = 16;

/// AAAA: an address of IPv6 (RFC 3596, section 2.1).
pub const KIND_AAAA: u16 = 28;

/// SRV: where a service is (RFC 2782).
pub const KIND_SRV: u16 = 33;

/// OPT: the options of a message (RFC 6891, section 6.1.1).
pub const KIND_OPT: u16 = 41;

/// `*` or ANY: all records, in a question (RFC 1035, section 3.2.3).
pub const KIND_ANY: u16 = 255;

/// IN: the Internet (RFC 1035, section 3.2.4).
pub const CLASS_IN: u16 = 1;

/// CH: CHAOS (RFC 1035, section 3.2.4).
pub const CLASS_CH: u16 = 3;

/// `*` or ANY: any class, in a question (RFC 1035, section 3.2.5).
pub const CLASS_ANY: u16 = 255;

/// QR: the message is a response (RFC 1035, section 4.1.1).
pub const FLAG_QR: u16 = 0x8000;

/// OPCODE: four bits for the kind of query, 0 for a standard one (RFC 1035, section 4.1.1).
pub const FLAGS_OPCODE: u16 = 0x7800;

/// AA: the answer has authority (RFC 1035, section 4.1.1).
pub const FLAG_AA: u16 = 0x0400;

/// TC: the message was truncated (RFC 1035, section 4.1.1).
pub const FLAG_TC: u16 = 0x0200;

/// RD: recursion is desired (RFC 1035, section 4.1.1).
pub const FLAG_RD: u16 = 0x0100;

/// RA: recursion is available (RFC 1035, section 4.1.1).
pub const FLAG_RA: u16 = 0x0080;

/// Z: three bits that are kept for later use (RFC 1035, section 4.1.1).
pub const FLAGS_Z: u16 = 0x0070;

/// RCODE: four bits for the response code (RFC 1035, section 4.1.1).
pub const FLAGS_RCODE: u16 = 0x000f;

/// No error (RFC 1035, section 4.1.1).
pub const RCODE_NO_ERROR: u16 = 0;

/// The server couldn't read the query (RFC 1035, section 4.1.1).
pub const RCODE_FORMAT_ERROR: u16 = 1;

/// The server failed (RFC 1035, section 4.1.1).
pub const RCODE_SERVER_FAILURE: u16 = 2;

/// There is no such name (RFC 1035, section 4.1.1).
pub const RCODE_NAME_ERROR: u16 = 3;

/// The server doesn't do this kind of query (RFC 1035, section 4.1.1).
pub const RCODE_NOT_IMPLEMENTED: u16 = 4;

/// The server refused the query (RFC 1035, section 4.1.1).
pub const RCODE_REFUSED: u16 = 5;

/// The law that these are the standard's numbers.
pub fn numbers_are_the_standards()
    ensures kinds { (KIND_A ≡ kind_a) × (KIND_NS ≡ kind_ns) × (KIND_CNAME ≡ kind_cname)
        × (KIND_SOA ≡ kind_soa) × (KIND_PTR ≡ kind_ptr) × (KIND_HINFO ≡ kind_hinfo)
        × (KIND_MX ≡ kind_mx) × (KIND_TXT ≡ kind_txt) × (KIND_AAAA ≡ kind_aaaa)
        × (KIND_SRV ≡ kind_srv) × (KIND_OPT ≡ kind_opt) × (KIND_ANY ≡ kind_any) }
    ensures classes { (CLASS_IN ≡ class_in) × (CLASS_CH ≡ class_ch) × (CLASS_ANY ≡ class_any) }
    ensures flags { (FLAG_QR ≡ flag_qr) × (FLAGS_OPCODE ≡ flags_opcode) × (FLAG_AA ≡ flag_aa)
        × (FLAG_TC ≡ flag_tc) × (FLAG_RD ≡ flag_rd) × (FLAG_RA ≡ flag_ra)
        × (FLAGS_Z ≡ flags_z) × (FLAGS_RCODE ≡ flags_rcode) }
    ensures rcodes { (RCODE_NO_ERROR ≡ rcode_no_error) × (RCODE_FORMAT_ERROR ≡ rcode_format_error)
        × (RCODE_SERVER_FAILURE ≡ rcode_server_failure) × (RCODE_NAME_ERROR ≡ rcode_name_error)
        × (RCODE_NOT_IMPLEMENTED ≡ rcode_not_implemented) × (RCODE_REFUSED ≡ rcode_refused) }
{}
