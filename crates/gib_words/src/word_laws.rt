//! What holds of the definitions: each law is the clause of a function that does nothing.

ghost use Rattle.std.specs.Prelude.{◌≡◌, ◌∷◌, [], ℕ, List, None, Some, codes, is_some, true};
ghost use Rattle.gib_types.specs.declared.access.FieldAccess.TheVariants.{Skips};
ghost use Rattle.gib_words.specs.{declared.plan.Job.TheVariants.{Run, Plain, Core, Code, Pack, Trace, Replay, Local}, Plan.{Named}};
ghost use Rattle.gib_words.specs.Words.{asked, taken, usual};

/// Words ask for something exactly where they are taken: each name of a file is there.
pub fn words_ask_where_taken()
    ensures { (words : List (List ℕ)) → is_some (asked words) ≡ taken words }
{}

/// Computed examples of what words ask for.
pub fn examples()
    // The depth that stands where none is given.
    ensures run { asked (codes "gib" ∷ codes "run" ∷ codes "a.gib" ∷ codes "t.gbp" ∷ [])
        ≡ Some (record { first = []; source = Named (codes "a.gib"); inputs = Named (codes "t.gbp") ∷ []; target = None; pack = None; job = Run; options = usual }) }
    // A depth before the names of the files, with a plus and zeros.
    ensures depth { asked (codes "gib" ∷ codes "plain" ∷ codes "--depth=+007" ∷ codes "a.gib" ∷ codes "t.gbp" ∷ [])
        ≡ Some (record { first = []; source = Named (codes "a.gib"); inputs = Named (codes "t.gbp") ∷ []; target = None; pack = None; job = Plain; options = record usual { depth = 7 } }) }
    // After `--` each word is a name.
    ensures names { asked (codes "gib" ∷ codes "pack" ∷ codes "--" ∷ codes "a" ∷ codes "--depth" ∷ codes "-" ∷ [])
        ≡ Some (record { first = []; source = Named (codes "a"); inputs = Named (codes "--depth") ∷ []; target = Some (codes "-"); pack = None; job = Pack; options = usual }) }
    // A depth past its range.
    ensures deep { asked (codes "gib" ∷ codes "run" ∷ codes "a" ∷ codes "b" ∷ codes "--depth" ∷ codes "1000001" ∷ []) ≡ None }
    // The pass that stands where none is given.
    ensures core { asked (codes "gib" ∷ codes "core" ∷ codes "a.gib" ∷ []) ≡ Some (record { first = []; source = Named (codes "a.gib"); inputs = []; target = None; pack = None; job = Core; options = usual }) }
    // Chunks.
    ensures chunks { asked (codes "gib" ∷ codes "run" ∷ codes "a" ∷ codes "b" ∷ codes "--chunks" ∷ codes "16" ∷ [])
        ≡ Some (record { first = []; source = Named (codes "a"); inputs = Named (codes "b") ∷ []; target = None; pack = None; job = Run; options = record usual { chunks = 16 } }) }
    // Chunks below their range.
    ensures few_chunks { asked (codes "gib" ∷ codes "run" ∷ codes "a" ∷ codes "b" ∷ codes "--chunks" ∷ codes "15" ∷ []) ≡ None }
    // An image.
    ensures image { asked (codes "gib" ∷ codes "run" ∷ codes "a" ∷ codes "b" ∷ codes "--image" ∷ codes "m.gbi" ∷ [])
        ≡ Some (record { first = []; source = Named (codes "a"); inputs = Named (codes "b") ∷ []; target = Some (codes "m.gbi"); pack = None; job = Run; options = record usual { image = true } }) }
    // The packed file of the result, alone and behind an image.
    ensures packed { asked (codes "gib" ∷ codes "run" ∷ codes "a" ∷ codes "b" ∷ codes "--pack" ∷ codes "o.gbp" ∷ [])
        ≡ Some (record { first = []; source = Named (codes "a"); inputs = Named (codes "b") ∷ []; target = None; pack = Some (codes "o.gbp"); job = Run; options = record usual { packs = true } }) }
    ensures image_packed { asked (codes "gib" ∷ codes "run" ∷ codes "--pack=o" ∷ codes "a" ∷ codes "b" ∷ codes "--image=m" ∷ [])
        ≡ Some (record { first = []; source = Named (codes "a"); inputs = Named (codes "b") ∷ []; target = Some (codes "m"); pack = Some (codes "o"); job = Run; options = record usual { image = true; packs = true } }) }
    ensures packed_twice { asked (codes "gib" ∷ codes "run" ∷ codes "a" ∷ codes "b" ∷ codes "--pack" ∷ codes "o" ∷ codes "--pack" ∷ codes "o" ∷ []) ≡ None }
    ensures trace_packed { asked (codes "gib" ∷ codes "trace" ∷ codes "a" ∷ codes "b" ∷ codes "j" ∷ codes "--pack" ∷ codes "o" ∷ []) ≡ None }
    // The code of a program.
    ensures code { asked (codes "gib" ∷ codes "code" ∷ codes "a.gib" ∷ []) ≡ Some (record { first = []; source = Named (codes "a.gib"); inputs = []; target = None; pack = None; job = Code; options = usual }) }
    // The flag, on the commands that take it, and on one that takes it not.
    ensures skips { asked (codes "gib" ∷ codes "run" ∷ codes "--skips" ∷ codes "a" ∷ codes "b" ∷ [])
        ≡ Some (record { first = []; source = Named (codes "a"); inputs = Named (codes "b") ∷ []; target = None; pack = None; job = Run; options = record usual { access = Skips } }) }
    ensures code_skips { asked (codes "gib" ∷ codes "code" ∷ codes "a.gib" ∷ codes "--skips" ∷ [])
        ≡ Some (record { first = []; source = Named (codes "a.gib"); inputs = []; target = None; pack = None; job = Code; options = record usual { access = Skips } }) }
    ensures plain_skips { asked (codes "gib" ∷ codes "plain" ∷ codes "a" ∷ codes "b" ∷ codes "--skips" ∷ []) ≡ None }
    // Workers and forks, of a run and of one that is traced.
    ensures workers { asked (codes "gib" ∷ codes "run" ∷ codes "a" ∷ codes "b" ∷ codes "--workers" ∷ codes "64" ∷ codes "--fork=0" ∷ [])
        ≡ Some (record { first = []; source = Named (codes "a"); inputs = Named (codes "b") ∷ []; target = None; pack = None; job = Run; options = record usual { workers = 64; fork = 0 } }) }
    ensures no_workers { asked (codes "gib" ∷ codes "run" ∷ codes "a" ∷ codes "b" ∷ codes "--workers" ∷ codes "0" ∷ []) ≡ None }
    ensures forks { asked (codes "gib" ∷ codes "run" ∷ codes "a" ∷ codes "b" ∷ codes "--fork" ∷ codes "65" ∷ []) ≡ None }
    ensures trace { asked (codes "gib" ∷ codes "trace" ∷ codes "a" ∷ codes "b" ∷ codes "j" ∷ codes "--fork" ∷ codes "64" ∷ [])
        ≡ Some (record { first = []; source = Named (codes "a"); inputs = Named (codes "b") ∷ []; target = Some (codes "j"); pack = None; job = Trace; options = record usual { fork = 64 } }) }
    // A journal is read third, and its settings are its own.
    ensures replay { asked (codes "gib" ∷ codes "replay" ∷ codes "a" ∷ codes "b" ∷ codes "j" ∷ codes "--image=m" ∷ [])
        ≡ Some (record { first = []; source = Named (codes "a"); inputs = Named (codes "b") ∷ Named (codes "j") ∷ []; target = Some (codes "m"); pack = None; job = Replay; options = record usual { image = true } }) }
    ensures replay_depth { asked (codes "gib" ∷ codes "replay" ∷ codes "a" ∷ codes "b" ∷ codes "j" ∷ codes "--depth" ∷ codes "7" ∷ []) ≡ None }
    // A program that writes its places out takes the options of a run by workers, and makes no file.
    ensures located { asked (codes "gib" ∷ codes "local" ∷ codes "a" ∷ codes "b" ∷ codes "--workers" ∷ codes "8" ∷ [])
        ≡ Some (record { first = []; source = Named (codes "a"); inputs = Named (codes "b") ∷ []; target = None; pack = None; job = Local; options = record usual { workers = 8 } }) }
    ensures located_skips { asked (codes "gib" ∷ codes "local" ∷ codes "a" ∷ codes "b" ∷ codes "--skips" ∷ []) ≡ None }
    ensures located_image { asked (codes "gib" ∷ codes "local" ∷ codes "a" ∷ codes "b" ∷ codes "--image" ∷ codes "m" ∷ []) ≡ None }
    // A pass past its range.
    ensures pass { asked (codes "gib" ∷ codes "core" ∷ codes "a.gib" ∷ codes "--pass" ∷ codes "5" ∷ []) ≡ None }
    // What is packed, and into which version.
    ensures repack { asked (codes "gib" ∷ codes "pack" ∷ codes "a" ∷ codes "--from" ∷ codes "b" ∷ codes "c" ∷ codes "--v1" ∷ [])
        ≡ Some (record { first = []; source = Named (codes "a"); inputs = Named (codes "b") ∷ []; target = Some (codes "c"); pack = None; job = Pack; options = record usual { repacks = true; first_version = true } }) }
    // A name too few.
    ensures few { asked (codes "gib" ∷ codes "show" ∷ codes "a" ∷ []) ≡ None }
{}
