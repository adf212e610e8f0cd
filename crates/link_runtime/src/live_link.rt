//! A link while it lives.

use crate::connection::LinkConnection;
use crate::handshake::LinkKeys;
use crate::link_replica::LinkReplica;
use crate::links::Links;
use tags_clocks::ReplicaId;

/// The links of a process and its replica, for the threads that begin links.
#[derive(Drop)]
pub struct LinkContext<'a, P: LinkReplica> {
    /// The links.
    pub links: &'a Links<'a>,
    /// The replica.
    pub replica: &'a P,
}

/// A link, for its reader and its writer.
#[derive(Drop)]
pub struct LiveLink<'a, P: LinkReplica> {
    /// All links, and the replica.
    pub context: &'a LinkContext<'a, P>,
    /// Its connection.
    pub connection: &'a LinkConnection,
    /// The name of its peer.
    pub peer: ReplicaId,
    /// The keys of its frames.
    pub keys: LinkKeys,
}
