use std::io::{self, Stderr, Stdout, Write};
use sv_outside::{Put, Sink};

#[derive(Drop)]
enum Stream {
    Output(Stdout),
    Error(Stderr),
}

/// Standard output or standard error. It tells nothing of what it has taken.
#[derive(Drop)]
pub struct HostSink {
    stream: Stream,
    faults: u64,
}

impl HostSink {
    ghost use Rattle.std.specs.Prelude.{◌≡◌};
    ghost use Rattle.disk_file.specs.HostViews.{host_put_faults};

    pub fn stdout(rt: &HostRuntime) -> HostSink
        ensures { host_put_faults result ≡ 0 }
    {
        HostSink {
            stream: Stream::Output(rt.stdout()),
            faults: 0,
        }
    }

    pub fn stderr(rt: &HostRuntime) -> HostSink
        ensures { host_put_faults result ≡ 0 }
    {
        HostSink {
            stream: Stream::Error(rt.stderr()),
            faults: 0,
        }
    }
}

/// Writes until all is taken; a write that takes nothing is a failure.
fn write_all(stream: &mut Stream, piece: &[u8]) -> io::Result<()> {
    match stream {
        Stream::Output(out) => {
            out.write_all(piece)?;
            out.flush()
        }
        Stream::Error(err) => {
            err.write_all(piece)?;
            err.flush()
        }
    }
}

impl Sink for HostSink {
    ghost use Rattle.std.specs.Prelude.{None};

    ghost taken = { λ _. None };

    ghost faults = { λ s. s.faults };

    ghost refusals = { λ _. 0 };

    fn put(&mut self, piece: &[u8]) -> Put {
        match write_all(&mut self.stream, piece) {
            Ok(()) => Put::Ok,
            Err(_) => {
                self.faults = self.faults.saturating_add(1);
                Put::Failed
            }
        }
    }
}
