//! Shared links that their origin ends while they rest.
ghost use Rattle.px_base.specs.Sources.{untold_source};
ghost use Rattle.px_base.specs.Sinks.{untold_sink};
ghost use Rattle.px_sockets.specs.Untold.{untold_dialer};

use crate::common::same;
use crate::pool::{ANSWER, CLOSES, visit};
use px_base::{DialFault, Dialer, Failed, Rests, Sink, SinkFault, Source, raised};
use px_link_pool::LinkPool;

/// Gives one answer, and has ended behind it.
#[derive(Drop)]
struct Ending {
    answered: bool,
}

impl Source for Ending {
    ghost state = { λ s. untold_source 0 0 };

    fn read(&mut self, buf: &mut [u8]) -> Result<usize, Failed> {
        if self.answered {
            return Ok(0);
        }
        self.answered = true;
        let answer = ANSWER.as_bytes();
        let count = answer.len().min(buf.len());
        buf[..count].copy_from_slice(&answer[..count]);
        Ok(count)
    }
}

impl Rests for Ending {
    fn has_ended(&mut self) -> bool {
        self.answered
    }
}

/// Takes all bytes.
#[derive(Drop)]
struct Taking;

impl Sink for Taking {
    ghost state = { λ s. untold_sink 0 0 };

    fn write(&mut self, bytes: &[u8]) -> Result<usize, SinkFault> {
        Ok(bytes.len())
    }

    fn finish(&mut self) {}
}

/// Gives links that end behind their answer, and counts them.
#[derive(Drop)]
struct EndingDialer {
    opened: u64,
    hung_up: u64,
}

impl Dialer for EndingDialer {
    type In = Ending;

    type Out = Taking;

    ghost state = { λ d. untold_dialer 0 0 0 0 d.opened d.hung_up 0 };

    fn dial(&mut self, _host: &[u8], _port: u16) -> Result<(Ending, Taking), DialFault> {
        self.opened = raised(self.opened, true);
        Ok((Ending { answered: false }, Taking))
    }

    fn hang_up(&mut self, _link_in: Ending, _link_out: Taking) {
        self.hung_up = raised(self.hung_up, true);
    }
}

#[test]
fn a_kept_link_that_has_ended_is_not_lent(rt: HostRuntime) {
    let dialer = EndingDialer {
        opened: 0,
        hung_up: 0,
    };
    let mut pool = LinkPool::<EndingDialer>::new(rt.alloc(), dialer);
    same(&rt, visit(&mut pool, "a.test", 80, CLOSES), Some(40));
    same(&rt, visit(&mut pool, "a.test", 80, CLOSES), Some(40));
    let dialer = pool.into_inner();
    same(&rt, dialer.opened, 2);
    same(&rt, dialer.hung_up, 2);
}
