// One call.
ghost use Rattle.std.specs.Prelude.{◌≡◌, map, length};
ghost use Rattle.replay.specs.Calls.{Made};

use crate::calls::{Answer, Call, Reply, counted};
use filters::Filter;
use ladder::poses::Step;
use ladder::rules::Cost;
use resolver::Resolver;
use sources::Source;

// Makes a call, with the first of the given places as its output. None where it names a source or a filter that is not there, or brings more
// places than are left: then it is not made.
pub(crate) fn make<C: Cost, S: Source, F: Filter>(
    resolver: &mut Resolver<C>,
    call: Call,
    sources: &mut [S],
    filters: &mut [F],
    outputs: &mut [Step],
) -> Option<Answer<C>>
    ensures sources { map S.Source.meaning sources.new ≡ map S.Source.meaning sources.old }
    ensures filters { map F.Filter.passes filters.new ≡ map F.Filter.passes filters.old }
    ensures made { Made (map S.Source.meaning sources.old) (map F.Filter.passes filters.old) C.Cost.rules
        call resolver.old.core outputs.old result outputs.new resolver.new.core }
{
    // by the kind of a call, as calls are data; sources and filters by index: nothing is known of a slice's elements after `get_mut`
    if call.places() > outputs.len() {
        return None;
    }
    match call {
        Call::Add { source, waypoint } if source < sources.len() => {
            Some(counted(resolver.add(&mut sources[source], waypoint)))
        }
        Call::Close => Some(counted(resolver.close())),
        Call::Next { places } => Some(resolver.next(&mut outputs[..places]).map(Reply::Given)),
        Call::Seek { filter, places } if filter < filters.len() => {
            let sought = resolver.seek(&mut filters[filter], &mut outputs[..places]);
            Some(sought.map(Reply::Given))
        }
        _ => None,
    }
}
