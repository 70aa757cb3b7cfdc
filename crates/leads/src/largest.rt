// The largest lead of a netlist: nobody plans by it, and the preview tells it.
ghost use Rattle.std.specs.Prelude.{◌≡◌, false};
ghost use Rattle.netlist.specs.Net.{Sourced};
ghost use Rattle.retiming.specs.Leads.{closed_debt};
ghost use Rattle.retiming.specs.Rewrite.{timing};
ghost use Rattle.retiming.specs.Preview.{largest_lead_of};
ghost use Rattle.leads.specs.Settled.{LeadsIn};

use areas::at_or;
use circuit::Netlist;

// The numbers of the registers are looked at too: none is larger than that of some other node.
pub fn largest_lead(net: &Netlist, leads: &[u16]) -> u16
    requires sourced { Sourced net.now.net }
    requires no_debt { closed_debt net.now.net ≡ false }
    requires leads { LeadsIn net.now.net (timing net.now.net) leads.now }
    ensures { result ≡ largest_lead_of net.now.net }
{
    let mut most: u16 = 0;
    for v in 0..net.node_count() {
        most = most.max(at_or(leads, v, 0));
    }
    most
}
