//! All that is asked of the list: what arrives at its second pod.
ghost use Rattle.std.specs.Prelude.{◌≡◌, length};
ghost use Rattle.np_model.specs.Prelude.{IsFew};

use crate::addresses::{expect_at_addresses, expect_by_layer_of_addresses};
use crate::layers::{expect_from_address, expect_from_pod};
use crate::packets::expect_packet;
use crate::rule_names::expect_names;
use crate::ruled_list::estate_of_list;
use crate::strangers::{expect_stranger_by_kept, expect_stranger_by_rules};
use np_base::PortNum;
use np_model::{Direction, Estate};
use np_rules::PodRules;
use std::alloc::Global;
use std::process::Abort;

// The rule of the NetworkPolicy lets one packet in, and the baseline is not asked about the other.
fn expect_packets(rt: &impl Abort, alloc: Global, estate: &Estate)
    requires { length estate.now.pods ≡ 2 }
{
    expect_packet(rt, alloc, estate, PortNum::new(80), "TCP 80 : Allow");
    expect_packet(rt, alloc, estate, PortNum::new(81), "TCP 81 : Deny");
}

// What arrives at the second pod by its rules.
fn expect_side(rt: &impl Abort, alloc: Global, estate: &Estate)
    requires few { IsFew estate.now }
    requires pods { length estate.now.pods ≡ 2 }
{
    let rules = PodRules::of(alloc, estate, 1, Direction::Ingress).expect(rt, "rules");
    expect_from_pod(rt, alloc, &rules);
    expect_from_address(rt, alloc, &rules);
    expect_at_addresses(rt, alloc, &rules);
    expect_by_layer_of_addresses(rt, alloc, &rules);
    expect_names(rt, alloc, &rules);
    expect_stranger_by_rules(rt, alloc, &rules);
}

#[test]
fn answers_of_rules(rt: HostRuntime) {
    let estate = estate_of_list(&rt, rt.alloc());
    assert!(rt; estate.pods().len() == 2);
    expect_packets(&rt, rt.alloc(), &estate);
    expect_stranger_by_kept(&rt, rt.alloc(), &estate);
    expect_side(&rt, rt.alloc(), &estate);
}
