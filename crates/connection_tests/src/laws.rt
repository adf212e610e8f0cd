//! The law is called.

use crate::reading::Collector;
use link_connection::received_ops_are_authentic;

#[test]
fn laws_are_called(_rt: HostRuntime) {
    received_ops_are_authentic::<Collector>();
}
