//! What a server refuses before it listens.
use host_sessions::{ConfigFault, ListenFault, Sessions, read_config};
use std::test::Fail;

/// A configuration that says no address.
const NOWHERE: &[u8] =
    br#"{"listen":"x","tenants":[{"name":"one","cluster_id":"7","quota":"64"}]}"#;

#[test]
fn half_an_object_is_no_configuration(rt: HostRuntime) {
    let told = read_config(rt.alloc(), b"{");
    assert!(rt; matches!(told, Err(ConfigFault::Unreadable)));
}

#[test]
fn a_word_is_no_address(rt: HostRuntime) -> Result<(), Fail> {
    let config = read_config(rt.alloc(), NOWHERE)?;
    let told = Sessions::listen(&rt, &config);
    assert!(rt; matches!(told, Err(ListenFault::Address)));
    Ok(())
}
