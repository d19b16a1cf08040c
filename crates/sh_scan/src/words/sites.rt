//! Where the parts of a word are read.
ghost use Rattle.std.specs.Prelude.{◌≡◌, ◌≤◌, ◌<◌, ◌==◌, true, length, drop};
ghost use Rattle.sh_tree.specs.standard.language.Bytes as bytes;
ghost use Rattle.sh_tree.specs.standard.language.Words as words;

use crate::bytes::ends_token;
use crate::front::begins_with;
use sh_tree::Site;

/// Whether the byte is one of these.
pub fn is_among(known: &[u8], byte: u8) -> bool
    ensures { result ≡ bytes.is_in known.now byte }
{
    known.iter().any(|one| *one == byte)
}

/// Whether the byte is after the first `from` bytes.
pub fn begins_at(rest: &[u8], from: usize, byte: u8) -> bool
    requires { from ≤ length rest.now }
    ensures value { result ≡ bytes.is_first (λ c. c == byte) (drop from rest.now) }
    ensures within { result ≡ true → from < length rest.now }
{
    begins_with(&rest[from..], byte)
}

/// Whether the site is read as in double quotes.
pub fn is_quoted(site: Site) -> bool
    ensures { result ≡ words.is_quoted site }
{
    match site {
        Site::Word | Site::Braced => false,
        Site::Double | Site::QuotedBraced | Site::Body | Site::Verbatim => true,
    }
}

/// Whether the byte ends the site.
pub fn stops(site: Site, byte: u8) -> bool
    ensures { result ≡ words.stops site byte }
{
    match site {
        Site::Word => ends_token(byte),
        Site::Double => byte == b'"',
        Site::Braced | Site::QuotedBraced => byte == b'}',
        Site::Body | Site::Verbatim => false,
    }
}

/// How long that end is.
pub fn stop_length(site: Site) -> usize
    ensures value { result ≡ words.stop_length site }
    ensures within { result ≤ 1 }
{
    match site {
        Site::Word | Site::Body | Site::Verbatim => 0,
        Site::Double | Site::Braced | Site::QuotedBraced => 1,
    }
}

/// Whether the byte means more than itself.
pub fn is_special(site: Site, byte: u8) -> bool
    ensures { result ≡ words.is_special site byte }
{
    match site {
        Site::Word | Site::Braced => is_among(b"$`\"'\\", byte),
        Site::Double | Site::QuotedBraced => is_among(b"$`\"\\", byte),
        Site::Body => is_among(b"$`\\", byte),
        Site::Verbatim => false,
    }
}

/// Whether a backslash in quotes keeps the byte (XCU 2.2.3, 2.7.4).
fn is_kept(site: Site, byte: u8) -> bool
    ensures { result ≡ words.is_kept site byte }
{
    match site {
        Site::Double | Site::QuotedBraced => is_among(b"$`\"\\", byte),
        Site::Body => is_among(b"$`\\", byte),
        Site::Word | Site::Braced | Site::Verbatim => false,
    }
}

/// Whether a backslash and the byte after it are read together.
pub fn is_escaped(site: Site, byte: u8) -> bool
    ensures { result ≡ words.is_escaped site byte }
{
    let kept = is_kept(site, byte) || byte == b'\n';
    match site {
        Site::Word | Site::Braced => true,
        Site::QuotedBraced => kept || byte == b'}',
        Site::Double | Site::Body => kept,
        Site::Verbatim => false,
    }
}

pub fn is_word_site(site: Site) -> bool
    ensures { result ≡ words.is_word_site site }
{
    match site {
        Site::Word => true,
        Site::Double | Site::Braced | Site::QuotedBraced | Site::Body | Site::Verbatim => false,
    }
}

/// Whether a default is read as in double quotes.
pub fn is_default_site(site: Site) -> bool
    ensures { result ≡ words.is_default_site site }
{
    match site {
        Site::QuotedBraced => true,
        Site::Word | Site::Double | Site::Braced | Site::Body | Site::Verbatim => false,
    }
}
