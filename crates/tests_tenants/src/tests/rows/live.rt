//! Rows in which the operator's lines come between calls.
use super::Row;

/// Rows whose tenants take other quotas, or are removed.
pub(crate) const LIVE_ROWS: [Row; 1] = [
    // live_quota
    Row {
        script: r#"pool 4
add one 7 8 1
call POST /t/one/v3/kv/put {"key":"Zm9v","value":"YmFy"}
call POST /t/one/v3/kv/put {"key":"Zm9v","value":"YmFy"}
call POST /t/one/v3/kv/put {"key":"Zm9v","value":"YmFy"}
resize one 4
call POST /t/one/v3/maintenance/status {}
call POST /t/one/v3/kv/deleterange {"key":"Zm9v"}
call POST /t/one/v3/kv/put {"key":"Zm9v","value":"YmFy"}
resize one 257
resize one 256
call POST /t/one/v3/kv/put {"key":"Zm9v","value":"YmFy"}
call POST /t/one/v3/maintenance/alarm {"action":"DEACTIVATE","alarm":"NOSPACE"}
call POST /t/one/v3/kv/put {"key":"Zm9v","value":"YmFy"}
resize two 8
resize two 3
remove two
remove one
call POST /t/one/v3/kv/put {"key":"Zm9v","value":"YmFy"}
"#,
        answers: r#"ok
ok
200 {"header":{"cluster_id":"7","member_id":"1","raft_term":"1","revision":"2"}}
200 {"header":{"cluster_id":"7","member_id":"1","raft_term":"1","revision":"3"}}
200 {"header":{"cluster_id":"7","member_id":"1","raft_term":"1","revision":"4"}}
ok
200 {"dbSize":"192","dbSizeInUse":"384","header":{"cluster_id":"7","member_id":"1","raft_term":"1","revision":"4"}}
200 {"deleted":"1","header":{"cluster_id":"7","member_id":"1","raft_term":"1","revision":"5"}}
429 {"code":8,"error":"etcdserver: mvcc: database space exceeded","message":"etcdserver: mvcc: database space exceeded"}
no short
ok
429 {"code":8,"error":"etcdserver: mvcc: database space exceeded","message":"etcdserver: mvcc: database space exceeded"}
200 {"alarms":[{"alarm":"NOSPACE","memberID":"1"}],"header":{"cluster_id":"7","member_id":"1","raft_term":"1","revision":"5"}}
200 {"header":{"cluster_id":"7","member_id":"1","raft_term":"1","revision":"6"}}
no tenant
no limits
no tenant
ok
404 {"code":5,"error":"etcd_host: no such tenant","message":"etcd_host: no such tenant"}
"#,
    },
];
