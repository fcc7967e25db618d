//! Example words of the command line.
ghost use Rattle.std.specs.Prelude.{◌≡◌, [], ◌∷◌, codes, Some, None};
ghost use Rattle.zy_command_line.specs.declared.request.Run.{Run};
ghost use Rattle.zy_command_line.specs.Request.{request_of};
ghost use Rattle.zy_command_line.specs.declared.request.Request.TheVariants as Requests;
ghost use Rattle.zy_command_line.specs.declared.request.Out.TheVariants as Outs;

/// Example words, and what they ask for.
#[tactic(auto, unfolding(zy_command_line::specs::Grammar::options_from))]
pub fn worked_requests()
    ensures empty { request_of [] ≡ None }
    ensures defaults { request_of (codes "run" ∷ [])
        ≡ Some (Requests.Run (record { cores = 4; threads = 4; order = None; shards = 16; rest = 0 }) Outs.Replies) }
    ensures both_forms { request_of (codes "run" ∷ codes "--out=both" ∷ codes "--cores" ∷ codes "2" ∷ [])
        ≡ Some (Requests.Run (record { cores = 2; threads = 2; order = None; shards = 16; rest = 0 }) Outs.Both) }
    ensures order { request_of (codes "run" ∷ codes "--threads" ∷ codes "1" ∷ codes "--order" ∷ codes "7" ∷ [])
        ≡ Some (Requests.Run (record { cores = 4; threads = 1; order = Some 7; shards = 16; rest = 0 }) Outs.Replies) }
    ensures threaded_order { request_of (codes "run" ∷ codes "--cores" ∷ codes "2" ∷ codes "--order" ∷ codes "1" ∷ [])
        ≡ None }
    ensures no_core { request_of (codes "run" ∷ codes "--cores" ∷ codes "0" ∷ []) ≡ None }
    ensures twice { request_of (codes "run" ∷ codes "--cores" ∷ codes "2" ∷ codes "--cores" ∷ codes "2" ∷ []) ≡ None }
    ensures dashes { request_of (codes "run" ∷ codes "--" ∷ []) ≡ None }
    ensures other_out { request_of (codes "run" ∷ codes "--out=x" ∷ []) ≡ None }
    ensures other_command { request_of (codes "check" ∷ codes "--cores=1" ∷ []) ≡ None }
    ensures default_port { request_of (codes "pcap" ∷ []) ≡ Some (Requests.Pcap 11211) }
    ensures port { request_of (codes "pcap" ∷ codes "--port=65535" ∷ []) ≡ Some (Requests.Pcap 65535) }
    ensures no_port { request_of (codes "pcap" ∷ codes "--port" ∷ codes "0" ∷ []) ≡ None }
    ensures port_over { request_of (codes "pcap" ∷ codes "--port=65536" ∷ []) ≡ None }
    ensures report { request_of (codes "report" ∷ []) ≡ Some Requests.Report }
    ensures report_option { request_of (codes "report" ∷ codes "--shards=1" ∷ []) ≡ None }
    ensures too_much { request_of (codes "gen" ∷ codes "--conns=1001" ∷ codes "--commands=1000" ∷ []) ≡ None }
{}

/// Example words with `--rest`, and what they ask for.
#[tactic(auto, unfolding(zy_command_line::specs::Grammar::options_from))]
pub fn worked_rests()
    ensures most { request_of (codes "run" ∷ codes "--rest" ∷ codes "1000000" ∷ [])
        ≡ Some (Requests.Run (record { cores = 4; threads = 4; order = None; shards = 16; rest = 1000000 })
        Outs.Replies) }
    ensures over { request_of (codes "run" ∷ codes "--rest" ∷ codes "1000001" ∷ []) ≡ None }
    ensures no_number { request_of (codes "run" ∷ codes "--rest" ∷ codes "x" ∷ []) ≡ None }
    ensures on_one_thread { request_of (codes "run" ∷ codes "--threads=1" ∷ codes "--rest=7" ∷ [])
        ≡ Some (Requests.Run (record { cores = 4; threads = 1; order = None; shards = 16; rest = 7 }) Outs.Replies) }
    ensures of_a_test { request_of (codes "self" ∷ codes "--rest=1" ∷ [])
        ≡ Some (Requests.SelfTest (record { number = 1; conns = 200; commands = 100 })
        (record { cores = 4; threads = 4; order = None; shards = 16; rest = 1 })) }
    ensures other_command { request_of (codes "check" ∷ codes "--rest=1" ∷ []) ≡ None }
{}
