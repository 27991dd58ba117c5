//! Hosts that are no neighbours, by a policy of one's own.
use super::config;
use super::nodes::{heard, new_node};
use super::octets::{CER, CER_OF_B};
use dm_node::{Answer, Config, Conn, Node, Strangers};
use dm_peer::State;
use std::process::Abort;

/// Permits each host of so many octets at most, by this template, up to so many neighbours.
#[derive(Drop)]
struct Permits {
    template: Config,
    longest: usize,
    most: usize,
}

impl Strangers for Permits {
    ghost use Rattle.std.specs.Prelude.{None, Some, length, nat_le, if◌then◌else◌};

    ghost policy = { λ permits. record {
      template = λ host. if nat_le (length host) permits.longest then Some permits.template else None;
      most = permits.most;
      porter = None;
    } };

    fn most(&self) -> usize {
        self.most
    }

    fn porter(&self) -> Option<usize> {
        None
    }

    fn template(&self, host: &[u8]) -> Option<&Config> {
        if host.len() <= self.longest {
            Some(&self.template)
        } else {
            None
        }
    }
}

/// What comes of a CER on the connection, by a template of this application and for hosts of so many octets at most,
/// where there may be so many neighbours: whom it concerned, how many actions are asked for, and how many neighbours
/// there are then.
type Case<'a> = (u32, usize, usize, u64, &'a str, Option<usize>, usize, usize);

/// No more than may be, its own host, one that is too long, a peer that refuses the caller, and one that takes it.
const CASES: &[Case<'static>] = &[
    (4, 9, 0, 5, CER_OF_B, None, 2, 0),
    (4, 9, 1, 6, CER, None, 2, 0),
    (4, 8, 1, 8, CER_OF_B, None, 2, 0),
    (5, 9, 1, 7, CER_OF_B, None, 2, 0),
    (4, 9, 1, 9, CER_OF_B, Some(0), 1, 1),
];

fn meets(rt: &(impl Abort + AllocGlobal), node: &mut Node, case: &Case<'_>) -> bool {
    let (application, longest, most, conn, digits, concerned, count, present) = *case;
    let template = config(rt, b"a.example", b"c.example", application).expect(rt, "a template");
    let policy = Permits {
        template,
        longest,
        most,
    };
    let mut answer = Answer::new();
    let told = heard(rt, node, &policy, Conn(conn), digits, &mut answer);
    drop(answer);
    drop(policy);
    told == Some((concerned, count)) && node.iter().len() == present
}

fn assert_policy(rt: &(impl Abort + AllocGlobal)) {
    let mut node = new_node(rt);
    for case in CASES {
        assert!(rt; meets(rt, &mut node, case), "at {case:?}");
    }
    assert!(rt; node.state_of(0) == Some(State::ROpen) && node.find(b"B.example") == Some(0));
    drop(node);
}

/// An unknown host becomes a neighbour where the policy permits it, and there may be one more.
#[test]
fn unknown_hosts_are_taken(rt: HostRuntime) {
    assert_policy(&rt);
}
