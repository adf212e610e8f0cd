//! The state that the threads of a server share.

ghost use Rattle.std.specs.Prelude.{◌≡◌, IfOk};
ghost use Rattle.server_runtime.specs.Logins.{auth_of, login_of};

use crate::replica_handle::{JoiningReplicas, ReplicaHandle};
use imap_answers::Login;
use imap_node::{Auth, Credentials};
use imap_types::Octets;
use link_runtime::Links;
use log_files::StoreFolder;
use server_settings::{Access, ClientLimits};
use std::alloc::{AllocError, Global};
use std::net::{SocketAddr, TcpListener};
use std::sync::{Mutex, Wait};

/// The number of connections that must still end before the server stops; `None` if it never stops.
#[derive(Drop)]
pub struct StopCounter {
    left: Mutex<Option<u32>>,
}

impl StopCounter {
    /// Stops after this number of connections.
    pub fn after(connections: Option<u32>) -> StopCounter {
        StopCounter {
            left: Mutex::new(connections),
        }
    }

    /// Counts a connection that ended. True if it was the last.
    pub fn end_one<R: Wait>(&self, rt: &R) -> bool {
        let mut left = self.left.lock(rt);
        match *left {
            None | Some(0) => false,
            Some(count) => {
                *left = Some(count - 1);
                count == 1
            }
        }
    }

    /// Whether the server stops.
    pub fn is_over<R: Wait>(&self, rt: &R) -> bool {
        *self.left.lock(rt) == Some(0)
    }
}

/// The state that the threads of a server share.
#[derive(Drop)]
pub struct ServerState<'a> {
    /// Who may use the server.
    pub access: Access<'a>,
    /// How long it waits for clients, and how large their literals may be.
    pub limits: ClientLimits,
    /// The replicas; those that are to join come after the others.
    pub replicas: Vec<ReplicaHandle>,
    /// The replicas that are to join.
    pub joining: JoiningReplicas,
    /// The most octets that each replica's journal may take; `None` if there is no bound.
    pub journal: Option<u64>,
    /// The folder of the replicas' logs; `None` if the server stores nothing.
    pub store: Option<StoreFolder>,
    /// The links to other processes, if there are any.
    pub links: Option<Links<'a>>,
    /// Where replicas listen for clients that speak IMAP4rev1.
    pub rev1: Vec<Rev1Listener>,
    /// When the server stops.
    pub stop: StopCounter,
}

/// Where a replica listens for clients that speak IMAP4rev1.
#[derive(Drop)]
pub struct Rev1Listener {
    /// The replica's place among all.
    pub own: usize,
    /// The listener.
    pub listener: TcpListener,
    /// Its address.
    pub address: SocketAddr,
}

impl ServerState<'_> {
    /// Where the replica at this place listens for clients that speak IMAP4rev1, if it does.
    pub fn rev1_listener(&self, own: usize) -> Option<&Rev1Listener> {
        for it in &self.rev1 {
            if it.own == own {
                return Some(it);
            }
        }
        None
    }

    /// Has the links look for what they can send.
    pub fn signal_links<R: Wait>(&self, rt: &R) {
        if let Some(links) = &self.links {
            links.signal.give(rt);
        }
    }
}

/// The login that a greeting asks for.
pub fn login_of(access: Access<'_>) -> Login
    ensures { result ≡ login_of access.entry }
{
    match access {
        Access::Preauth => Login::PreAuthenticated,
        Access::Password { .. } => Login::Required,
    }
}

/// How the users of sessions are authenticated; `Err` if memory runs out.
pub fn auth_of(alloc: Global, access: Access<'_>) -> Result<Auth, AllocError>
    ensures { IfOk result (λ auth. auth ≡ auth_of access.entry) }
{
    match access {
        Access::Preauth => Ok(Auth::Preauth),
        Access::Password { user, pass } => Ok(Auth::Password {
            credentials: Credentials {
                user: Octets::from_slice(alloc, user.as_bytes())?,
                password: Octets::from_slice(alloc, pass.as_bytes())?,
            },
        }),
    }
}
