// What holds of the views after every list of requests, and of the bytes of tables.
ghost use Rattle.std.specs.Prelude.{◌≡◌, ◌≢◌, ℕ, List, [], ◌∷◌, ◌++◌, Some, slice_get, Result, Ok, Err};
ghost use Rattle.circus_header.specs.declared.call.Request.{Request as Asked};
ghost use Rattle.circus_collate.specs.declared.deployment.Troupe.{Troupe as Members};
ghost use Rattle.circus_collate.specs.declared.deployment.Deployment.{Deployment as Deployed};
ghost use Rattle.circus_collate.specs.Deployment.{IsDeployment};
ghost use Rattle.circus_collate.specs.declared.table.Table.{Table as Answer};
ghost use Rattle.circus_collate.specs.declared.view.View.{View as Known};
ghost use Rattle.circus_ring.specs.RingTable.{troupe_of, kept_after, answer_after};
ghost use Rattle.circus_ring.specs.ViewOf.{IsBootable, IsViewOf};
ghost use Rattle.circus_header.specs.Field.{bytes_of};
ghost use Rattle.circus_header.specs.Reading.{IsOne};
ghost use Rattle.circus_header.specs.declared.header_fault.HeaderFault.{HeaderFault as Fault};
ghost use Rattle.circus_header.specs.declared.header_fault.HeaderFault.TheVariants.{NoMemory};
ghost use Rattle.circus_ring.specs.TableFields.{tables, table_fields, IsTableRead};

/// A request is answered with the view that its troupe has afterwards, and changes no other view.
pub fn answers_show_the_views()
    ensures shown { (troupes : List Members) (requests : List Asked) (request : Asked)
        (table : Answer)
        → answer_after troupes requests request ≡ Some table
        → slice_get (kept_after troupes (requests ++ request ∷ [])).views (troupe_of request)
        ≡ Some table.view }
    ensures others { (troupes : List Members) (requests : List Asked) (request : Asked) (number : ℕ)
        → number ≢ troupe_of request
        → slice_get (kept_after troupes (requests ++ request ∷ [])).views number
        ≡ slice_get (kept_after troupes requests).views number }
{}

/// After every list of requests the view of a troupe whose founders differ and are at most 16 has the number of the
/// troupe, an incarnation from 1 to 4,294,967,295, and at most 16 entries, which are different nodes and each a
/// founder or a spare.
pub fn views_are_of_their_troupes()
    ensures views { (troupes : List Members) (requests : List Asked) (place : ℕ) (troupe : Members)
        (view : Known)
        → slice_get troupes place ≡ Some troupe → IsBootable troupe
        → slice_get (kept_after troupes requests).views place ≡ Some view
        → IsViewOf place troupe view }

    // The troupes of a deployment are such troupes.
    ensures deployed { (deployment : Deployed) (place : ℕ) (troupe : Members)
        → IsDeployment deployment → slice_get deployment.troupes place ≡ Some troupe
        → IsBootable troupe }
{}

/// Bytes are read as one table or refused at one place, but for want of memory.
pub fn one_table()
    ensures { (bytes : List ℕ) (a b : Result Answer Fault) → IsTableRead bytes a
        → IsTableRead bytes b
        → a ≢ Err NoMemory → b ≢ Err NoMemory → a ≡ b }
{}

/// The bytes of a table are read as that table, but for want of memory.
pub fn tables_are_read()
    ensures { (table : Answer) (a : Result Answer Fault) → IsOne tables table
        → IsTableRead (bytes_of (table_fields table)) a
        → a ≢ Err NoMemory → a ≡ Ok table }
{}

/// The bytes of a table begin with those of no other table.
pub fn no_table_begins_another()
    ensures { (a b : Answer) (rest : List ℕ) → IsOne tables a → IsOne tables b
        → bytes_of (table_fields b) ≡ bytes_of (table_fields a) ++ rest → a ≡ b }
{}
