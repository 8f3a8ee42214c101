//! Two threads share a pool of request slots: it is opened, used, resized, used again, and closed with exact totals.
#![tactic(auto)]

mod pool;

use crate::pool::serve_all;
use std::process::ExitCode;

fn main(rt: HostRuntime) -> ExitCode {
    match serve_all(&rt) {
        Ok(served) => {
            let tags = served.tags;
            let _ = println!(rt; "requests={}", served.requests);
            let _ = println!(rt;
                "got={} back={} held={} posted={}",
                tags.got, tags.back, tags.held, tags.posted
            );
            ExitCode::SUCCESS
        }
        Err(stop) => {
            let _ = eprintln!(rt; "request_pool stopped: {stop:?}");
            ExitCode::FAILURE
        }
    }
}
