//! Rows of leases, with the ticks that end them.
use super::Row;

/// Rows of calls and ticks, and takes of what is told of a lease's end.
pub(crate) const LEASE_ROWS: [Row; 1] = [
    // neighbours
    Row {
        script: r#"add one 7 9 1
add two 9 1024 1
call POST /t/one/v3/lease/grant {"TTL":"10"}
call POST /t/two/v3/kv/put {"key":"Zm9v","value":"YmFy"}
call POST /t/one/v3/kv/put {"key":"Zm9v","value":"YmFy"}
call POST /t/two/v3/lease/grant {"TTL":"10"}
call POST /t/one/v3/kv/put {"key":"Zm9v","value":"YmFy"}
call POST /t/two/v3/kv/put {"key":"Yg==","lease":"1"}
call POST /t/one/v3/kv/put {"key":"Zm9v","value":"YmFy"}
call POST /t/two/v3/watch {"create_request":{"key":"Zm9v","start_revision":"2"}}
call POST /t/one/v3/kv/put {"key":"Zm9v","value":"YmFy"}
take two 0
"#,
        answers: r#"ok
ok
200 {"ID":"1","TTL":"10","header":{"cluster_id":"7","member_id":"1","raft_term":"1","revision":"1"}}
200 {"header":{"cluster_id":"9","member_id":"1","raft_term":"1","revision":"2"}}
200 {"header":{"cluster_id":"7","member_id":"1","raft_term":"1","revision":"2"}}
200 {"ID":"1","TTL":"10","header":{"cluster_id":"9","member_id":"1","raft_term":"1","revision":"2"}}
200 {"header":{"cluster_id":"7","member_id":"1","raft_term":"1","revision":"3"}}
200 {"header":{"cluster_id":"9","member_id":"1","raft_term":"1","revision":"3"}}
200 {"header":{"cluster_id":"7","member_id":"1","raft_term":"1","revision":"4"}}
200 {"result":{"created":true,"header":{"cluster_id":"9","member_id":"1","raft_term":"1","revision":"3"}}}
429 {"code":8,"error":"etcdserver: mvcc: database space exceeded","message":"etcdserver: mvcc: database space exceeded"}
200 {"result":{"events":[{"kv":{"create_revision":"2","key":"Zm9v","mod_revision":"2","value":"YmFy","version":"1"}}],"header":{"cluster_id":"9","member_id":"1","raft_term":"1","revision":"3"}}}
"#,
    },
];
