// The host of a running operation: it does the services on an image that lies in memory.
ghost use Rattle.std.specs.Prelude.{◌≡◌, Some};
ghost use Rattle.steps.specs.Step.{stepped, region_after, buffer_after};

use running::{Op, Reply, Request};
use steps::Stepped;

// More services than any operation on 4 regions asks for, so that each run ends.
const MANY: usize = 64;

// A host is not ready so many times before each service, and the service of this number, if any, fails, counted from 0.
#[derive(Clone, Copy)]
pub struct Host {
    pub waits: usize,
    pub fails: Option<usize>,
}

impl Host {
    pub const READY: Host = Host {
        waits: 0,
        fails: None,
    };

    pub const SLOW: Host = Host {
        waits: 2,
        fails: None,
    };

    pub fn failing(service: usize) -> Host
        ensures { (result.waits ≡ 0) × (result.fails ≡ Some service) }
    {
        Host {
            waits: 0,
            fails: Some(service),
        }
    }
}

// The flash, and what is lent to the operation that runs on it: the region buffer, and append's value or get's buffer.
#[derive(Drop)]
pub struct Flash<'a> {
    pub image: &'a mut [u8; 256],
    pub region: [u8; 64],
    pub value: &'a [u8],
    pub buffer: &'a mut [u8],
    pub host: Host,
}

impl<'a> Flash<'a> {
    pub fn new(
        image: &'a mut [u8; 256],
        value: &'a [u8],
        buffer: &'a mut [u8],
        host: Host,
    ) -> Flash<'a>
        ensures lent { (result.image.ghost_name ≡ image.entry.ghost_name) × (result.buffer.ghost_name ≡ buffer.entry.ghost_name) }
        ensures held { (result.image.now ≡ image.old) × (result.value.now ≡ value.now) × (result.buffer.now ≡ buffer.old) × (result.host ≡ host) }
    {
        Flash {
            image,
            region: [0; 64],
            value,
            buffer,
            host,
        }
    }

    // R8.3: a step with what is lent.
    pub fn step(&mut self, op: Op, reply: Reply) -> Stepped
        ensures step { result ≡ stepped op reply self.old.region self.old.value.now self.old.buffer.now }
        ensures region { self.new.region ≡ region_after op reply self.old.region self.old.value.now self.old.buffer.now }
        ensures buffer { self.new.buffer.now ≡ buffer_after op reply self.old.region self.old.value.now self.old.buffer.now }
    {
        steps::step(op, reply, &mut self.region, self.value, self.buffer)
    }

    // A step with another value and buffer than the operation was started with.
    pub fn step_lent(&mut self, op: Op, reply: Reply, value: &[u8], buffer: &mut [u8]) -> Stepped
        ensures step { result ≡ stepped op reply self.old.region value.now buffer.old }
        ensures region { self.new.region ≡ region_after op reply self.old.region value.now buffer.old }
        ensures buffer { buffer.new ≡ buffer_after op reply self.old.region value.now buffer.old }
    {
        steps::step(op, reply, &mut self.region, value, buffer)
    }

    // From a request to the answer. What standard output does not take is passed over, here as below: no host fails by its prints.
    pub fn drive(&mut self, rt: &impl Print, first: Stepped) -> Stepped {
        let mut now = first;
        for served in 0..MANY {
            if let Request::Answers(_) = now.request {
                break;
            }
            now = self.beat(rt, now, served);
        }
        now
    }

    // One service: asked for, waited for, and done or failed.
    pub fn beat(&mut self, rt: &impl Print, now: Stepped, served: usize) -> Stepped {
        let _ = print!(rt; "  {}", now.request);
        let op = self.wait(rt, now);
        let reply = if self.host.fails == Some(served) {
            let _ = print!(rt; " (fails)");
            Reply::Failed
        } else if serve(now.request, self.image, &mut self.region).is_some() {
            Reply::Done
        } else {
            let _ = print!(rt; " (outside)");
            Reply::Failed
        };
        let _ = println!(rt; "");
        self.step(op, reply)
    }

    // A host that is not ready hears its request again, each time. Another than the one that stands would be a mistake of the step's.
    fn wait(&mut self, rt: &impl Print, now: Stepped) -> Op {
        let mut op = now.op;
        for _ in 0..self.host.waits {
            let _ = print!(rt; " (not ready)");
            let again = self.step(op, Reply::NotReady);
            if again.request != now.request {
                let _ = print!(rt; " (another request)");
            }
            op = again.op;
        }
        op
    }
}

// A request that does not lie in the chip is not done. No operation asks for one.
fn serve(request: Request, image: &mut [u8; 256], buffer: &mut [u8; 64]) -> Option<()> {
    match request {
        Request::Read { region } => {
            let (regions, _) = image.as_chunks::<64>();
            *buffer = *regions.get(region)?;
        }
        Request::Write { from, to, place } => {
            let bytes = buffer.get(from..to)?;
            let part = image.get_mut(place..)?.get_mut(..bytes.len())?;
            chip::write(part, 0, bytes);
        }
        Request::Erase { region } => {
            let (regions, _) = image.as_chunks_mut::<64>();
            chip::erase(regions.get_mut(region)?);
        }
        Request::Answers(_) => return None,
    }
    Some(())
}
