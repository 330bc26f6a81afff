// A write of the CSR, register 0 (document 01, "Registers"). The definitions are in specs/Csr.antt.
ghost use Rattle.std.specs.Prelude.{◌≡◌};
ghost use Rattle.registers.specs.Csr.{requested_of, set_then_cleared_of, changed_of, after_request_of, written_of};

use super::csr::{Csr, CsrWrite, Request};

impl Csr {
    // [CSRWrite.1] [CSRWrite.2d]
    pub fn requested(value: u32) -> Request
        ensures { result ≡ requested_of value }
    {
        if bits::bit_at(value, 15) {
            return Request::Initialize;
        }
        if bits::bit_at(value, 14) {
            return Request::Reset;
        }
        Request::Nothing
    }

    // [CSRWrite.2a] clear wins
    fn set_then_cleared(self, value: u32) -> Csr
        ensures { result ≡ set_then_cleared_of value self }
    {
        let set = bits::set(self.word, value & Csr::SETTABLE_BITS);
        Csr {
            word: bits::clear(set, (value >> 16) & Csr::SETTABLE_BITS),
        }
    }

    // [CSRWrite.2b] [CSRWrite.2c]
    fn changed(self, value: u32) -> Csr
        ensures { result ≡ changed_of value self }
    {
        let next = self.set_then_cleared(value);
        let rises = !self.is_go() & next.is_go();
        next.cleared_if(rises | bits::bit_at(value, 31), Csr::STATUS_BITS)
    }

    fn after_request(self, request: Request, value: u32) -> Csr
        ensures { result ≡ after_request_of request value self }
    {
        match request {
            Request::Initialize => Csr::fresh(),
            Request::Reset => self.changed(value).cleared(Csr::RESET_BITS),
            Request::Nothing => self.changed(value),
        }
    }

    pub fn written(self, value: u32) -> CsrWrite
        ensures { result ≡ written_of value self }
    {
        let request = Csr::requested(value);
        let next = self.after_request(request, value);
        CsrWrite { next, request }
    }
}
