//! The words of a command line that say how the process is linked with others.

ghost use Rattle.std.specs.Prelude.{◌≡◌, ◌≢◌, ◌<◌, ◌++◌, ◌∷◌, [], IfNone, IfOk, IfSome, None};
ghost use Rattle.std.specs.Prelude.{OnOk, false, map, option_map, true};
ghost use Rattle.clap.specs.Words.{first_of, found_of, rows_of};
ghost use Rattle.server_settings.specs.Links.{IsHostPort, IsPeerText, NamesLinks};
ghost use Rattle.server_settings.specs.Settings.{AreNames, AreTexts, names_of};
ghost use Rattle.server_settings.specs.declared.settings.Place.{Place};

use crate::settings::{Place, UsageFault, add_name, name_of, place_of};
use clap::ArgMatches;
use std::alloc::Global;

/// How a process is linked with others.
#[derive(Drop)]
pub struct LinkWords<'a> {
    /// The address at which it listens for links, as it was given; `None` if it doesn't.
    pub listen: Option<&'a str>,
    /// The processes to which it opens links, in their order: the names of their replicas, and the
    /// addresses at which they listen for links.
    pub peers: Vec<Place<'a>>,
    /// The path of the file that has the secret, as it was given.
    pub secret_file: &'a str,
}

/// How the words link the process with others; `None` if they don't. `names` has the names of its
/// replicas, and gets those of its peers. Errors are found in this order: a secret without a link
/// or a link without a secret, a process that may not be linked, the peers in theirs.
pub(crate) fn links_of<'a>(
    alloc: Global,
    names: &mut Vec<u16>,
    matches: &ArgMatches<'a>,
    is_linkable: bool,
) -> Result<Option<LinkWords<'a>>, UsageFault<'a>>
    requires { AreNames names.old.items }
    ensures links { IfOk result (λ links. NamesLinks (rows_of (found_of matches.now)) links) }
    ensures linkable { IfOk result (λ links. IfSome links (λ _. is_linkable ≡ true)) }
    ensures names { IfOk result (λ links. IfSome links
        (λ words. AreNames (names.old.items ++ names_of words.peers.items))) }
{
    let listen = word_in(matches, "link-listen");
    let texts = matches.get_strs("peer").unwrap_or(&[]);
    let has_link = has_link(listen, texts);
    let Some(secret_file) = word_in(matches, "secret-file") else {
        if has_link {
            return Err(UsageFault::Secret);
        }
        return Ok(None);
    };
    if !has_link {
        return Err(UsageFault::Secret);
    }
    if !is_linkable {
        return Err(UsageFault::LinkedReplicas);
    }
    match peers_of(alloc, names, texts) {
        Ok(peers) => Ok(Some(LinkWords {
            listen,
            peers,
            secret_file,
        })),
        Err(fault) => Err(fault),
    }
}

/// The value of a word, if it was given.
fn word_in<'a>(matches: &ArgMatches<'a>, word: &str) -> Option<&'a str>
    ensures { option_map (λ value. value.now) result
        ≡ first_of word.now (rows_of (found_of matches.now)) }
{
    matches.get_str(word)
}

/// Whether there is a link, by where the process listens for links and by its peers.
fn has_link(listen: Option<&str>, peers: &[&str]) -> bool
    ensures some { result ≡ true → listen.entry ≡ None → peers.now ≢ [] }
    ensures none { result ≡ false → (listen.entry ≡ None) × (peers.now ≡ []) }
{
    if listen.is_some() {
        return true;
    }
    !peers.is_empty()
}

/// The processes that these words name, in their order. Their names are added after the others.
fn peers_of<'a>(
    alloc: Global,
    names: &mut Vec<u16>,
    texts: &[&'a str],
) -> Result<Vec<Place<'a>>, UsageFault<'a>>
    requires { AreNames names.old.items }
    ensures texts { IfOk result
        (λ peers. AreTexts IsPeerText (map (λ text. text.now) texts.now) peers.items) }
    ensures names { IfOk result (λ peers. AreNames (names.old.items ++ names_of peers.items)) }
{
    let mut peers = Vec::new(alloc);
    for text in texts {
        match add_peer(names, &mut peers, text) {
            Ok(()) => {}
            Err(fault) => return Err(fault),
        }
    }
    Ok(peers)
}

/// Adds the process that a word names, and its name.
fn add_peer<'a>(
    names: &mut Vec<u16>,
    peers: &mut Vec<Place<'a>>,
    text: &'a str,
) -> Result<(), UsageFault<'a>>
    requires { AreNames names.old.items }
    ensures names { OnOk result (AreNames names.new.items) }
    ensures more { OnOk result ((peer : Place)
        × (names.new.items ≡ names.old.items ++ peer.replica ∷ [])
        × IsPeerText text.entry.now peer
        × (peers.new.items ≡ peers.old.items ++ peer ∷ [])) }
{
    let Some(peer) = peer_of(text) else {
        return Err(UsageFault::BadPeer(text));
    };
    let replica = peer.replica;
    match add_name(names, replica) {
        Ok(true) => {}
        Ok(false) => return Err(UsageFault::Twice(replica)),
        Err(_) => return Err(UsageFault::NoMemory),
    }
    match peers.push(peer) {
        Ok(()) => Ok(()),
        Err(_) => Err(UsageFault::NoMemory),
    }
}

/// The process that a word names: its replica's name, `=`, and an address whose host and port are
/// separated by its last `:`. `None` for any other text.
pub fn peer_of(text: &str) -> Option<Place<'_>>
    ensures positive { IfSome result (λ peer. 0 < peer.replica) }
    ensures some { IfSome result (λ peer. IsPeerText text.now peer) }
    ensures none { IfNone result ((peer : Place) → IsPeerText text.now peer → ⊥) }
{
    let peer = place_of(text)?;
    port_of(peer.address)?;
    Some(peer)
}

/// The port of an address that is a host and a port. `None` for any other text.
fn port_of(address: &str) -> Option<u16>
    ensures some { IfSome result (λ _. IsHostPort address.now) }
    ensures none { IfNone result (IsHostPort address.now → ⊥) }
{
    let (host, port) = address.rsplit_once(':')?;
    if host.is_empty() {
        return None;
    }
    let number = name_of(port)?;
    Some(number)
}
