//! Rows of watches.
use super::Row;

/// Rows of calls, ticks, takes and catch-ups.
pub(crate) const WATCH_ROWS: [Row; 4] = [
    // watch_of_twenty_puts
    Row {
        script: r#"add one 7 1024 1
call POST /t/one/v3/kv/put {"key":"YQ==","value":"MQ=="}
call POST /t/one/v3/kv/put {"key":"YQ==","value":"MQ=="}
call POST /t/one/v3/kv/put {"key":"YQ==","value":"MQ=="}
call POST /t/one/v3/kv/put {"key":"YQ==","value":"MQ=="}
call POST /t/one/v3/kv/put {"key":"YQ==","value":"MQ=="}
call POST /t/one/v3/kv/put {"key":"YQ==","value":"MQ=="}
call POST /t/one/v3/kv/put {"key":"YQ==","value":"MQ=="}
call POST /t/one/v3/kv/put {"key":"YQ==","value":"MQ=="}
call POST /t/one/v3/kv/put {"key":"YQ==","value":"MQ=="}
call POST /t/one/v3/kv/put {"key":"YQ==","value":"MQ=="}
call POST /t/one/v3/kv/put {"key":"YQ==","value":"MQ=="}
call POST /t/one/v3/kv/put {"key":"YQ==","value":"MQ=="}
call POST /t/one/v3/kv/put {"key":"YQ==","value":"MQ=="}
call POST /t/one/v3/kv/put {"key":"YQ==","value":"MQ=="}
call POST /t/one/v3/kv/put {"key":"YQ==","value":"MQ=="}
call POST /t/one/v3/kv/put {"key":"YQ==","value":"MQ=="}
call POST /t/one/v3/kv/put {"key":"YQ==","value":"MQ=="}
call POST /t/one/v3/kv/put {"key":"YQ==","value":"MQ=="}
call POST /t/one/v3/kv/put {"key":"YQ==","value":"MQ=="}
call POST /t/one/v3/kv/put {"key":"YQ==","value":"MQ=="}
call POST /t/one/v3/watch {"create_request":{"key":"YQ==","start_revision":"2"}}
take one 0
take one 0
take one 0
"#,
        answers: r#"ok
200 {"header":{"cluster_id":"7","member_id":"1","raft_term":"1","revision":"2"}}
200 {"header":{"cluster_id":"7","member_id":"1","raft_term":"1","revision":"3"}}
200 {"header":{"cluster_id":"7","member_id":"1","raft_term":"1","revision":"4"}}
200 {"header":{"cluster_id":"7","member_id":"1","raft_term":"1","revision":"5"}}
200 {"header":{"cluster_id":"7","member_id":"1","raft_term":"1","revision":"6"}}
200 {"header":{"cluster_id":"7","member_id":"1","raft_term":"1","revision":"7"}}
200 {"header":{"cluster_id":"7","member_id":"1","raft_term":"1","revision":"8"}}
200 {"header":{"cluster_id":"7","member_id":"1","raft_term":"1","revision":"9"}}
200 {"header":{"cluster_id":"7","member_id":"1","raft_term":"1","revision":"10"}}
200 {"header":{"cluster_id":"7","member_id":"1","raft_term":"1","revision":"11"}}
200 {"header":{"cluster_id":"7","member_id":"1","raft_term":"1","revision":"12"}}
200 {"header":{"cluster_id":"7","member_id":"1","raft_term":"1","revision":"13"}}
200 {"header":{"cluster_id":"7","member_id":"1","raft_term":"1","revision":"14"}}
200 {"header":{"cluster_id":"7","member_id":"1","raft_term":"1","revision":"15"}}
200 {"header":{"cluster_id":"7","member_id":"1","raft_term":"1","revision":"16"}}
200 {"header":{"cluster_id":"7","member_id":"1","raft_term":"1","revision":"17"}}
200 {"header":{"cluster_id":"7","member_id":"1","raft_term":"1","revision":"18"}}
200 {"header":{"cluster_id":"7","member_id":"1","raft_term":"1","revision":"19"}}
200 {"header":{"cluster_id":"7","member_id":"1","raft_term":"1","revision":"20"}}
200 {"header":{"cluster_id":"7","member_id":"1","raft_term":"1","revision":"21"}}
200 {"result":{"created":true,"header":{"cluster_id":"7","member_id":"1","raft_term":"1","revision":"21"}}}
200 {"result":{"events":[{"kv":{"create_revision":"2","key":"YQ==","mod_revision":"2","value":"MQ==","version":"1"}},{"kv":{"create_revision":"2","key":"YQ==","mod_revision":"3","value":"MQ==","version":"2"}},{"kv":{"create_revision":"2","key":"YQ==","mod_revision":"4","value":"MQ==","version":"3"}},{"kv":{"create_revision":"2","key":"YQ==","mod_revision":"5","value":"MQ==","version":"4"}},{"kv":{"create_revision":"2","key":"YQ==","mod_revision":"6","value":"MQ==","version":"5"}},{"kv":{"create_revision":"2","key":"YQ==","mod_revision":"7","value":"MQ==","version":"6"}},{"kv":{"create_revision":"2","key":"YQ==","mod_revision":"8","value":"MQ==","version":"7"}},{"kv":{"create_revision":"2","key":"YQ==","mod_revision":"9","value":"MQ==","version":"8"}},{"kv":{"create_revision":"2","key":"YQ==","mod_revision":"10","value":"MQ==","version":"9"}},{"kv":{"create_revision":"2","key":"YQ==","mod_revision":"11","value":"MQ==","version":"10"}},{"kv":{"create_revision":"2","key":"YQ==","mod_revision":"12","value":"MQ==","version":"11"}},{"kv":{"create_revision":"2","key":"YQ==","mod_revision":"13","value":"MQ==","version":"12"}},{"kv":{"create_revision":"2","key":"YQ==","mod_revision":"14","value":"MQ==","version":"13"}},{"kv":{"create_revision":"2","key":"YQ==","mod_revision":"15","value":"MQ==","version":"14"}},{"kv":{"create_revision":"2","key":"YQ==","mod_revision":"16","value":"MQ==","version":"15"}},{"kv":{"create_revision":"2","key":"YQ==","mod_revision":"17","value":"MQ==","version":"16"}}],"header":{"cluster_id":"7","member_id":"1","raft_term":"1","revision":"21"}}}
200 {"result":{"events":[{"kv":{"create_revision":"2","key":"YQ==","mod_revision":"18","value":"MQ==","version":"17"}},{"kv":{"create_revision":"2","key":"YQ==","mod_revision":"19","value":"MQ==","version":"18"}},{"kv":{"create_revision":"2","key":"YQ==","mod_revision":"20","value":"MQ==","version":"19"}},{"kv":{"create_revision":"2","key":"YQ==","mod_revision":"21","value":"MQ==","version":"20"}}],"header":{"cluster_id":"7","member_id":"1","raft_term":"1","revision":"21"}}}
204
"#,
    },
    // watch_of_twenty_puts_with_catchup
    Row {
        script: r#"add one 7 1024 1
call POST /t/one/v3/kv/put {"key":"YQ==","value":"MQ=="}
call POST /t/one/v3/kv/put {"key":"YQ==","value":"MQ=="}
call POST /t/one/v3/kv/put {"key":"YQ==","value":"MQ=="}
call POST /t/one/v3/kv/put {"key":"YQ==","value":"MQ=="}
call POST /t/one/v3/kv/put {"key":"YQ==","value":"MQ=="}
call POST /t/one/v3/kv/put {"key":"YQ==","value":"MQ=="}
call POST /t/one/v3/kv/put {"key":"YQ==","value":"MQ=="}
call POST /t/one/v3/kv/put {"key":"YQ==","value":"MQ=="}
call POST /t/one/v3/kv/put {"key":"YQ==","value":"MQ=="}
call POST /t/one/v3/kv/put {"key":"YQ==","value":"MQ=="}
call POST /t/one/v3/kv/put {"key":"YQ==","value":"MQ=="}
call POST /t/one/v3/kv/put {"key":"YQ==","value":"MQ=="}
call POST /t/one/v3/kv/put {"key":"YQ==","value":"MQ=="}
call POST /t/one/v3/kv/put {"key":"YQ==","value":"MQ=="}
call POST /t/one/v3/kv/put {"key":"YQ==","value":"MQ=="}
call POST /t/one/v3/kv/put {"key":"YQ==","value":"MQ=="}
call POST /t/one/v3/kv/put {"key":"YQ==","value":"MQ=="}
call POST /t/one/v3/kv/put {"key":"YQ==","value":"MQ=="}
call POST /t/one/v3/kv/put {"key":"YQ==","value":"MQ=="}
call POST /t/one/v3/kv/put {"key":"YQ==","value":"MQ=="}
call POST /t/one/v3/watch {"create_request":{"key":"YQ==","start_revision":"2"}}
catchup one 3
take one 0
catchup one 3
take one 0
catchup one 3
take one 0
"#,
        answers: r#"ok
200 {"header":{"cluster_id":"7","member_id":"1","raft_term":"1","revision":"2"}}
200 {"header":{"cluster_id":"7","member_id":"1","raft_term":"1","revision":"3"}}
200 {"header":{"cluster_id":"7","member_id":"1","raft_term":"1","revision":"4"}}
200 {"header":{"cluster_id":"7","member_id":"1","raft_term":"1","revision":"5"}}
200 {"header":{"cluster_id":"7","member_id":"1","raft_term":"1","revision":"6"}}
200 {"header":{"cluster_id":"7","member_id":"1","raft_term":"1","revision":"7"}}
200 {"header":{"cluster_id":"7","member_id":"1","raft_term":"1","revision":"8"}}
200 {"header":{"cluster_id":"7","member_id":"1","raft_term":"1","revision":"9"}}
200 {"header":{"cluster_id":"7","member_id":"1","raft_term":"1","revision":"10"}}
200 {"header":{"cluster_id":"7","member_id":"1","raft_term":"1","revision":"11"}}
200 {"header":{"cluster_id":"7","member_id":"1","raft_term":"1","revision":"12"}}
200 {"header":{"cluster_id":"7","member_id":"1","raft_term":"1","revision":"13"}}
200 {"header":{"cluster_id":"7","member_id":"1","raft_term":"1","revision":"14"}}
200 {"header":{"cluster_id":"7","member_id":"1","raft_term":"1","revision":"15"}}
200 {"header":{"cluster_id":"7","member_id":"1","raft_term":"1","revision":"16"}}
200 {"header":{"cluster_id":"7","member_id":"1","raft_term":"1","revision":"17"}}
200 {"header":{"cluster_id":"7","member_id":"1","raft_term":"1","revision":"18"}}
200 {"header":{"cluster_id":"7","member_id":"1","raft_term":"1","revision":"19"}}
200 {"header":{"cluster_id":"7","member_id":"1","raft_term":"1","revision":"20"}}
200 {"header":{"cluster_id":"7","member_id":"1","raft_term":"1","revision":"21"}}
200 {"result":{"created":true,"header":{"cluster_id":"7","member_id":"1","raft_term":"1","revision":"21"}}}
204
200 {"result":{"events":[{"kv":{"create_revision":"2","key":"YQ==","mod_revision":"2","value":"MQ==","version":"1"}},{"kv":{"create_revision":"2","key":"YQ==","mod_revision":"3","value":"MQ==","version":"2"}},{"kv":{"create_revision":"2","key":"YQ==","mod_revision":"4","value":"MQ==","version":"3"}},{"kv":{"create_revision":"2","key":"YQ==","mod_revision":"5","value":"MQ==","version":"4"}},{"kv":{"create_revision":"2","key":"YQ==","mod_revision":"6","value":"MQ==","version":"5"}},{"kv":{"create_revision":"2","key":"YQ==","mod_revision":"7","value":"MQ==","version":"6"}},{"kv":{"create_revision":"2","key":"YQ==","mod_revision":"8","value":"MQ==","version":"7"}},{"kv":{"create_revision":"2","key":"YQ==","mod_revision":"9","value":"MQ==","version":"8"}},{"kv":{"create_revision":"2","key":"YQ==","mod_revision":"10","value":"MQ==","version":"9"}},{"kv":{"create_revision":"2","key":"YQ==","mod_revision":"11","value":"MQ==","version":"10"}},{"kv":{"create_revision":"2","key":"YQ==","mod_revision":"12","value":"MQ==","version":"11"}},{"kv":{"create_revision":"2","key":"YQ==","mod_revision":"13","value":"MQ==","version":"12"}},{"kv":{"create_revision":"2","key":"YQ==","mod_revision":"14","value":"MQ==","version":"13"}},{"kv":{"create_revision":"2","key":"YQ==","mod_revision":"15","value":"MQ==","version":"14"}},{"kv":{"create_revision":"2","key":"YQ==","mod_revision":"16","value":"MQ==","version":"15"}},{"kv":{"create_revision":"2","key":"YQ==","mod_revision":"17","value":"MQ==","version":"16"}}],"header":{"cluster_id":"7","member_id":"1","raft_term":"1","revision":"21"}}}
204
200 {"result":{"events":[{"kv":{"create_revision":"2","key":"YQ==","mod_revision":"18","value":"MQ==","version":"17"}},{"kv":{"create_revision":"2","key":"YQ==","mod_revision":"19","value":"MQ==","version":"18"}},{"kv":{"create_revision":"2","key":"YQ==","mod_revision":"20","value":"MQ==","version":"19"}},{"kv":{"create_revision":"2","key":"YQ==","mod_revision":"21","value":"MQ==","version":"20"}}],"header":{"cluster_id":"7","member_id":"1","raft_term":"1","revision":"21"}}}
204
204
"#,
    },
    // watch_and_compaction
    Row {
        script: r#"add one 7 1024 1
call POST /t/one/v3/kv/put {"key":"YQ=="}
call POST /t/one/v3/kv/put {"key":"YQ=="}
call POST /t/one/v3/kv/put {"key":"Yg=="}
call POST /t/one/v3/kv/deleterange {"key":"YQ=="}
call POST /t/one/v3/watch {"create_request":{"key":"YQ==","start_revision":"3"}}
call POST /t/one/v3/watch {"create_request":{"key":"YQ==","start_revision":"5","prev_kv":true}}
call POST /t/one/v3/kv/compaction {"revision":"5"}
take one 0
take one 1
take one 0
"#,
        answers: r#"ok
200 {"header":{"cluster_id":"7","member_id":"1","raft_term":"1","revision":"2"}}
200 {"header":{"cluster_id":"7","member_id":"1","raft_term":"1","revision":"3"}}
200 {"header":{"cluster_id":"7","member_id":"1","raft_term":"1","revision":"4"}}
200 {"deleted":"1","header":{"cluster_id":"7","member_id":"1","raft_term":"1","revision":"5"}}
200 {"result":{"created":true,"header":{"cluster_id":"7","member_id":"1","raft_term":"1","revision":"5"}}}
200 {"result":{"created":true,"header":{"cluster_id":"7","member_id":"1","raft_term":"1","revision":"5"}}}
200 {"header":{"cluster_id":"7","member_id":"1","raft_term":"1","revision":"5"}}
200 {"result":{"canceled":true,"compact_revision":"5","header":{"cluster_id":"7","member_id":"1","raft_term":"1","revision":"5"}}}
200 {"result":{"events":[{"kv":{"key":"YQ==","mod_revision":"5"},"type":"DELETE"}],"header":{"cluster_id":"7","member_id":"1","raft_term":"1","revision":"5"}}}
204
"#,
    },
    // watch_and_compaction_with_catchup
    Row {
        script: r#"add one 7 1024 1
call POST /t/one/v3/kv/put {"key":"YQ=="}
call POST /t/one/v3/kv/put {"key":"YQ=="}
call POST /t/one/v3/kv/put {"key":"Yg=="}
call POST /t/one/v3/kv/deleterange {"key":"YQ=="}
call POST /t/one/v3/watch {"create_request":{"key":"YQ==","start_revision":"3"}}
call POST /t/one/v3/watch {"create_request":{"key":"YQ==","start_revision":"5","prev_kv":true}}
catchup one 100
call POST /t/one/v3/kv/compaction {"revision":"5"}
take one 0
take one 1
take one 0
"#,
        answers: r#"ok
200 {"header":{"cluster_id":"7","member_id":"1","raft_term":"1","revision":"2"}}
200 {"header":{"cluster_id":"7","member_id":"1","raft_term":"1","revision":"3"}}
200 {"header":{"cluster_id":"7","member_id":"1","raft_term":"1","revision":"4"}}
200 {"deleted":"1","header":{"cluster_id":"7","member_id":"1","raft_term":"1","revision":"5"}}
200 {"result":{"created":true,"header":{"cluster_id":"7","member_id":"1","raft_term":"1","revision":"5"}}}
200 {"result":{"created":true,"header":{"cluster_id":"7","member_id":"1","raft_term":"1","revision":"5"}}}
204
200 {"header":{"cluster_id":"7","member_id":"1","raft_term":"1","revision":"5"}}
200 {"result":{"canceled":true,"compact_revision":"5","header":{"cluster_id":"7","member_id":"1","raft_term":"1","revision":"5"}}}
200 {"result":{"events":[{"kv":{"key":"YQ==","mod_revision":"5"},"type":"DELETE"}],"header":{"cluster_id":"7","member_id":"1","raft_term":"1","revision":"5"}}}
204
"#,
    },
];
