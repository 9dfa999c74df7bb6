//! Rows in which tenants are called, and nothing else.
use super::Row;

/// Rows of calls.
pub(crate) const CALL_ROWS: [Row; 3] = [
    // first_put
    Row {
        script: r#"add one 7 1024 1
call POST /t/one/v3/kv/put {"key":"Zm9v","value":"YmFy"}
"#,
        answers: r#"ok
200 {"header":{"cluster_id":"7","member_id":"1","raft_term":"1","revision":"2"}}
"#,
    },
    // put_then_range
    Row {
        script: r#"add one 7 1024 1
call POST /t/one/v3/kv/put {"key":"Zm9v","value":"YmFy"}
call POST /t/one/v3/kv/range {"key":"Zm9v"}
call POST /t/one/v3/kv/range {"key":"Yg=="}
"#,
        answers: r#"ok
200 {"header":{"cluster_id":"7","member_id":"1","raft_term":"1","revision":"2"}}
200 {"count":"1","header":{"cluster_id":"7","member_id":"1","raft_term":"1","revision":"2"},"kvs":[{"create_revision":"2","key":"Zm9v","mod_revision":"2","value":"YmFy","version":"1"}]}
200 {"header":{"cluster_id":"7","member_id":"1","raft_term":"1","revision":"2"}}
"#,
    },
    // quota_and_alarm
    Row {
        script: r#"add one 7 8 1
call POST /t/one/v3/kv/put {"key":"Zm9v","value":"YmFy"}
call POST /t/one/v3/kv/put {"key":"Zm9v","value":"YmFy"}
call POST /t/one/v3/kv/put {"key":"Zm9v","value":"YmFy"}
call POST /t/one/v3/kv/put {"key":"Zm9v","value":"YmFy"}
call POST /t/one/v3/maintenance/alarm {}
call POST /t/one/v3/kv/deleterange {"key":"Zm9v"}
call POST /t/one/v3/maintenance/status {}
call POST /t/one/v3/kv/compaction {"revision":"5"}
call POST /t/one/v3/maintenance/status {}
call POST /t/one/v3/kv/put {"key":"Zm9v","value":"YmFy"}
call POST /t/one/v3/maintenance/alarm {"action":"DEACTIVATE","alarm":"NOSPACE"}
call POST /t/one/v3/kv/put {"key":"Zm9v","value":"YmFy"}
call POST /t/one/v3/maintenance/status {}
"#,
        answers: r#"ok
200 {"header":{"cluster_id":"7","member_id":"1","raft_term":"1","revision":"2"}}
200 {"header":{"cluster_id":"7","member_id":"1","raft_term":"1","revision":"3"}}
200 {"header":{"cluster_id":"7","member_id":"1","raft_term":"1","revision":"4"}}
429 {"code":8,"error":"etcdserver: mvcc: database space exceeded","message":"etcdserver: mvcc: database space exceeded"}
200 {"alarms":[{"alarm":"NOSPACE","memberID":"1"}],"header":{"cluster_id":"7","member_id":"1","raft_term":"1","revision":"4"}}
200 {"deleted":"1","header":{"cluster_id":"7","member_id":"1","raft_term":"1","revision":"5"}}
200 {"dbSize":"384","dbSizeInUse":"384","header":{"cluster_id":"7","member_id":"1","raft_term":"1","revision":"5"}}
200 {"header":{"cluster_id":"7","member_id":"1","raft_term":"1","revision":"5"}}
200 {"dbSize":"384","dbSizeInUse":"96","header":{"cluster_id":"7","member_id":"1","raft_term":"1","revision":"5"}}
429 {"code":8,"error":"etcdserver: mvcc: database space exceeded","message":"etcdserver: mvcc: database space exceeded"}
200 {"alarms":[{"alarm":"NOSPACE","memberID":"1"}],"header":{"cluster_id":"7","member_id":"1","raft_term":"1","revision":"5"}}
200 {"header":{"cluster_id":"7","member_id":"1","raft_term":"1","revision":"6"}}
200 {"dbSize":"384","dbSizeInUse":"288","header":{"cluster_id":"7","member_id":"1","raft_term":"1","revision":"6"}}
"#,
    },
];
