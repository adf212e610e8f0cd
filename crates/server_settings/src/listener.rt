//! Listening at the addresses that a command line names.

use crate::settings::Place;
use log::{Log, error};
use std::io;
use std::io::ErrorKind;
use std::net::{Net, SocketAddr, TcpListener, TcpStream, ToSocketAddrs};

/// Listens at the first of an address's socket addresses at which that is possible. The system's
/// queue of connections that wait to be accepted is as long as the system allows (std's has 128
/// places): a client that finds it full tries again after a second.
pub fn bind_listener<R: Net<Listener = TcpListener, Stream = TcpStream>>(
    rt: &R,
    address: &str,
) -> io::Result<TcpListener> {
    let mut outcome = Err(io::Error::from(ErrorKind::AddrNotAvailable));
    for address in address.to_socket_addrs(rt)? {
        outcome = bind_socket(rt, address);
        if outcome.is_ok() {
            break;
        }
    }
    outcome
}

/// Listens at a socket address.
fn bind_socket<R: Net<Listener = TcpListener, Stream = TcpStream>>(
    rt: &R,
    address: SocketAddr,
) -> io::Result<TcpListener> {
    let listener = TcpListener::from(mio::net::TcpListener::bind(rt, address)?);
    listener.set_nonblocking(false)?;
    Ok(listener)
}

/// Listens at the address at which a replica takes clients that speak IMAP4rev1, and prints that it
/// does, as `listen_at` does.
pub fn listen_for_rev1_at<R: Print + Log + Net<Listener = TcpListener, Stream = TcpStream>>(
    rt: &R,
    place: &Place<'_>,
) -> io::Result<Option<(TcpListener, SocketAddr)>> {
    let listener = match bind_listener(rt, place.address) {
        Ok(listener) => listener,
        Err(why) => {
            error!(rt; "cannot listen at {}: {why}", place.address);
            println!(rt; "cannot listen rev1 {} {}", place.replica, place.address)?;
            return Ok(None);
        }
    };
    let address = listener.local_addr()?;
    println!(rt; "listening rev1 {} {}", place.replica, place.address)?;
    Ok(Some((listener, address)))
}

/// Listens at a replica's address and prints that it does. Returns the listener and the address at
/// which it listens. `None` if it can't listen there; this is printed, and the log has the reason.
/// `Err` if printing fails, or if the listener doesn't know its address.
pub fn listen_at<R: Print + Log + Net<Listener = TcpListener, Stream = TcpStream>>(
    rt: &R,
    place: &Place<'_>,
) -> io::Result<Option<(TcpListener, SocketAddr)>> {
    let listener = match bind_listener(rt, place.address) {
        Ok(listener) => listener,
        Err(why) => {
            error!(rt; "cannot listen at {}: {why}", place.address);
            println!(rt; "cannot listen {} {}", place.replica, place.address)?;
            return Ok(None);
        }
    };
    let address = listener.local_addr()?;
    println!(rt; "listening {} {}", place.replica, place.address)?;
    Ok(Some((listener, address)))
}
